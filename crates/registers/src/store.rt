// The settings of a unit: a page of bytes, and the range codes of its loops in a type that never holds one above 4.
ghost use Rattle.std.specs.Prelude.{◌≡◌, length};

use control::Range;
use unit::page::Page;

pub mod bytes;

// The low nibbles of N registers, from FIRST on, are range codes, and are kept apart from the page. What a store means is a function of the
// register, as a page's meaning is, so it has no model either. Its array is its own, as that of `Marks` is.
#[derive(Drop)]
pub struct Store<const N: usize, const FIRST: u8> {
    page: Page,
    codes: [Range; N],
    ghost full: { length codes ≡ N },
}
