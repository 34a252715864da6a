// The strap of a double unit, which decides how it powers on.
ghost use Rattle.std.specs.Prelude.{◌≡◌};
ghost use Rattle.double_settings.specs.Registers.{first_start, is_automatic};

// Any number is a strap, and so no enum; a unit takes its own modulo 8.
#[derive(Clone, Copy, PartialEq, Eq, Debug)]
pub struct Strap(pub u8);

impl Strap {
    // Whether it leaves automatic control on.
    pub fn is_automatic(self) -> bool
        ensures { result ≡ is_automatic self.0 }
    {
        !matches!(self.0, 0 | 7)
    }

    // The start of every loop at power-on.
    pub(crate) fn start(self) -> u8
        ensures { result ≡ first_start self.0 }
    {
        match self.0 {
            1 | 6 => 48,
            2 | 5 => 40,
            _ => 32,
        }
    }
}
