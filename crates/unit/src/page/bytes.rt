// The bytes of a page.
ghost use Rattle.std.specs.Prelude.{◌≡◌};
ghost use Rattle.unit.specs.Parts.{bytes_of};
ghost use Rattle.unit.specs.Steps.{put};

use super::Page;

impl Page {
    pub fn zero() -> Page
        ensures { bytes_of result ≡ (λ _. 0) }
    {
        Page { bytes: [0; 256] }
    }

    // By index, which any byte is in range of.
    pub fn get(&self, register: u8) -> u8
        ensures { result ≡ bytes_of self.now register }
    {
        self.bytes[usize::from(register)]
    }

    // By index, likewise.
    pub fn put(&mut self, register: u8, byte: u8)
        ensures { bytes_of self.new ≡ put (bytes_of self.old) register byte }
    {
        self.bytes[usize::from(register)] = byte;
    }
}
