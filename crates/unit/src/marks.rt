// The marks of a unit's sources, one record each.
ghost use Rattle.std.specs.Prelude.{◌≡◌, length};

use crate::mark::Mark;

pub mod records;

// Sources are numbers here, since each kind has its own enum of them. No type is shared with the arrays of other crates, since a generic struct with an array of a type parameter asks for its size at each call, and there is
// no model, since what marks mean is a function of the source.
#[derive(Drop)]
pub struct Marks<const N: usize> {
    records: [Mark; N],
    ghost full: { length records ≡ N },
}
