// A page of registers, the plain part that a kind's settings are kept in.
ghost use Rattle.std.specs.Prelude.{◌≡◌, length};

pub mod bytes;

// No model, since what a page means is a function of the register, and a model's value is data.
#[derive(Drop)]
pub struct Page {
    bytes: [u8; 256],
    ghost full: { length bytes ≡ 256 },
}
