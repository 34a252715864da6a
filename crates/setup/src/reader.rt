// A reader over a lent set-up list, and what it yields.
use fault::Place;
use form::Line;
use std::marker::Model;

pub mod steps;

// Contracts see the lines that it has yet to yield.
#[derive(Drop)]
pub struct Reader<'a> {
    list: &'a [u8],
    // where the next line begins
    place: Place,
}

impl<'a> Model for Reader<'a> {
    ghost use Rattle.std.specs.Prelude.{List};
    ghost use Rattle.setup.specs.Lines.{TextAt};

    ghost Value = { List TextAt };

    ghost use Rattle.setup.specs.Reading.{ahead, InList};

    ghost view = { ahead };

    ghost invariant = { InList };
}

// The lines as they stand that a reader has yet to yield.
#[derive(Drop)]
pub struct Texts<'a>(Reader<'a>);

impl<'a> Model for Texts<'a> {
    ghost use Rattle.std.specs.Prelude.{List};
    ghost use Rattle.setup.specs.Lines.{TextAt};

    ghost Value = { List TextAt };

    ghost view = { λ a. a.0 };
}

// A line and where it stands.
#[derive(Clone, Copy, PartialEq, Eq, Debug)]
pub struct Placed<T> {
    pub place: Place,
    pub line: T,
}

// A line as it stands in the list, without its newline.
pub type Text<'a> = Placed<&'a [u8]>;

// What a line says.
pub type Entry<'a> = Placed<Line<'a>>;
