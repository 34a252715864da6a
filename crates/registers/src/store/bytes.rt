// A setting is read and put by its register.
ghost use Rattle.std.specs.Prelude.{◌≡◌, ◌-◌};
ghost use Rattle.std.specs.Bool.{then_some};
ghost use Rattle.registers.specs.Roles.{answer_to};
ghost use Rattle.registers.specs.Settings.{filled, has_code, kept, kept_as, range_code, settings_in};
ghost use Rattle.unit.specs.Steps.{after};

use super::Store;
use crate::{Role, check_write};
use control::Range;
use fault::Fault;
use unit::page::Page;

impl<const N: usize, const FIRST: u8> Store<N, FIRST> {
    // All zero, with range codes 0.
    fn zero() -> Store<N, FIRST>
        ensures { settings_in result ≡ (λ _. 0) }
    {
        Store {
            page: Page::zero(),
            codes: [Range::narrowest(); N],
        }
    }

    // Where the range code of a register is kept, if it has one.
    fn code_place(register: u8) -> Option<usize>
        ensures { result ≡ then_some (has_code N FIRST register) (register - FIRST) }
    {
        let place = usize::from(register.checked_sub(FIRST)?);
        (place < N).then_some(place)
    }

    pub fn byte(&self, register: u8) -> u8
        ensures { result ≡ settings_in self.now register }
    {
        let byte = self.page.get(register);
        match Self::code_place(register) {
            Some(place) => byte / 16 * 16 + u8::from(self.codes[place]),
            None => byte,
        }
    }

    // The range whose code is the low nibble of a register; the narrowest for a register that has none.
    pub fn range(&self, register: u8) -> Range
        ensures { result.code ≡ range_code N FIRST (settings_in self.now) register }
    {
        match Self::code_place(register) {
            Some(place) => self.codes[place],
            None => Range::narrowest(),
        }
    }

    // Puts a byte in place of a setting. One whose low nibble should be a range code and is none is left out.
    pub fn put(&mut self, register: u8, byte: u8)
        ensures { settings_in self.new ≡ kept N FIRST (settings_in self.old) register byte }
    {
        let Some(place) = Self::code_place(register) else {
            self.page.put(register, byte);
            return;
        };
        if let Ok(range) = Range::try_from(byte % 16) {
            self.page.put(register, byte);
            self.codes[place] = range;
        }
    }

    // A write to a register with this role, or to none.
    pub fn write(&mut self, role: Option<Role>, register: u8, byte: u8) -> Result<(), Fault>
        ensures answer { result ≡ answer_to role byte }
        ensures after { settings_in self.new ≡ after result (kept_as N FIRST role (settings_in self.old) register byte) (settings_in self.old) }
    {
        check_write(role, byte)?;
        if let Some(role @ (Role::Setting(_) | Role::Code(_))) = role {
            self.put(register, role.named(byte));
        }
        Ok(())
    }

    // All zero, and then these bytes put at their registers.
    pub fn power_on(bytes: &[(u8, u8)]) -> Store<N, FIRST>
        ensures { settings_in result ≡ filled N FIRST (λ _. 0) bytes.now }
    {
        let mut store = Store::zero();
        for &(register, byte) in bytes {
            store.put(register, byte);
        }
        store
    }
}
