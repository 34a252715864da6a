// Why a call is refused, and where in a set-up list: the one fault type that every layer hands up.
#![tactic(auto)]

ghost use Rattle.std.specs.Prelude.{◌≡◌, Some};
ghost use Rattle.fault.specs.declared.Cause.TheVariants.{ValueOutOfRange};
ghost use Rattle.fault.specs.Faults.{rule, fault_at, unplaced, fault_line};

use std::error::Error;
use std::fmt;
use std::num::TryFromIntError;

// The twelve refusals. Their numbers and layers are `rule` in specs/Faults.antt.
#[derive(Clone, Copy, PartialEq, Eq, Debug)]
pub enum Cause {
    NoUnit = 1,
    NoRegister = 2,
    ReadOnly = 3,
    RangeCode = 4,
    NoSourceOrFan = 5,
    ValueOutOfRange = 6,
    ListTooLong = 7,
    NoForm = 8,
    NoTrailer = 9,
    TrailerCount = 10,
    FanCount = 11,
    BufferTooShort = 12,
}

// The part of the software that meets a cause.
#[derive(Clone, Copy, PartialEq, Eq, Debug)]
pub enum Layer {
    List,
    Rack,
    Unit,
    Text,
}

// A line of a set-up list: its number, from 1, and the offset of its first byte.
#[derive(Clone, Copy, PartialEq, Eq, Debug)]
pub struct Place {
    pub line: usize,
    pub offset: usize,
}

#[derive(Clone, Copy, PartialEq, Eq, Debug)]
pub struct Fault {
    pub cause: Cause,
    // None for a fault of the whole list, or of a call outside a list
    pub place: Option<Place>,
}

impl Cause {
    pub fn number(self) -> u8
        ensures { result ≡ (rule self).number }
    {
        self as u8
    }

    pub fn layer(self) -> Layer
        ensures { result ≡ (rule self).layer }
    {
        match self {
            Cause::NoUnit => Layer::Rack,
            Cause::NoRegister
            | Cause::ReadOnly
            | Cause::RangeCode
            | Cause::NoSourceOrFan
            | Cause::ValueOutOfRange => Layer::Unit,
            Cause::ListTooLong
            | Cause::NoForm
            | Cause::NoTrailer
            | Cause::TrailerCount
            | Cause::FanCount => Layer::List,
            Cause::BufferTooShort => Layer::Text,
        }
    }

    // A fault of the line at a place.
    pub fn at(self, place: Place) -> Fault
        ensures { result ≡ fault_at self place }
    {
        Fault {
            cause: self,
            place: Some(place),
        }
    }

    // A fault of the whole list, or of a call outside a list.
    pub fn unplaced(self) -> Fault
        ensures { result ≡ unplaced self }
    {
        Fault {
            cause: self,
            place: None,
        }
    }
}

impl Error for Fault {}

// A number that its type can't hold.
impl From<TryFromIntError> for Fault {
    ghost from_gives = { λ _ f. f ≡ unplaced ValueOutOfRange };

    fn from(_error: TryFromIntError) -> Fault {
        Cause::ValueOutOfRange.unplaced()
    }
}

impl fmt::Display for Fault {
    ghost output = { λ f. Some (fault_line f) };

    fn fmt<W: fmt::Write>(&self, f: &mut fmt::Formatter<W>) -> fmt::Result {
        let number = self.cause.number();
        let (line, offset) = self
            .place
            .map_or((0, 0), |place| (place.line, place.offset));
        write!(f, "fault {number} {line} {offset}")
    }
}
