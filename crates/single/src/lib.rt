// The single unit: one fan, a tachometer, and a local and a remote temperature.
#![tactic(auto)]

ghost use Rattle.std.specs.Prelude.{◌≡◌, refl};
ghost use Rattle.own.specs.State.{own_of};
ghost use Rattle.single.specs.Kinds.{reading_at, single};
ghost use Rattle.single.specs.Meaning.{state_of};
ghost use Rattle.unit.specs.Kind.{made};
ghost use Rattle.single.specs.Laws;

use fault::{Cause, Fault};
use loops::loop_of;
use own::Own;
use quantity::byte_of;
use register::role_at;
use registers::Role;
use settings::Settings;
use source::{Channel, Source};
use unit::Unit;
use unit::marks::Marks;

pub mod loops;
pub mod register;
pub mod settings;
pub mod source;

#[derive(Drop)]
pub struct Single {
    settings: Settings,
    own: Own<1, 2>,
    marks: Marks<3>,
}

impl Single {
    pub fn new() -> Single
        ensures { state_of result ≡ made single 0 }
    {
        Single {
            settings: Settings::power_on(),
            own: Own::fresh(),
            marks: Marks::clear(),
        }
    }

    // The byte of a last reading, at the register that shows it: by number, as registers come, since a role says only that one is a reading.
    fn reading(&self, register: u8) -> u8
        ensures { result ≡ reading_at (own_of self.now.own) register }
    {
        match register {
            0x20 => self.own.tach(0),
            0x21 => byte_of(loop_of(&self.own, Channel::Local).reading),
            _ => byte_of(loop_of(&self.own, Channel::Remote).reading),
        }
    }
}

// Some methods read as a double unit's. They have no default in the trait, whose crate knows nothing of a kind's settings and
// roles, nor where a kind keeps its marks.
impl Unit for Single {
    const FANS: usize = 1;

    const SOURCES: usize = 3;

    ghost FANS = { 1 };

    ghost SOURCES = { 3 };

    ghost kind = { single };

    ghost state = { state_of };

    ghost fans_are = { refl };

    ghost sources_are = { refl };

    ghost ordered = { Laws.ordered };

    ghost faithful = { Laws.faithful };

    fn reset(&mut self) {
        *self = Single::new();
    }

    fn write(&mut self, register: u8, byte: u8) -> Result<(), Fault> {
        self.settings.write(register, byte)
    }

    fn read(&self, register: u8) -> Result<u8, Fault> {
        match role_at(register).ok_or(Cause::NoRegister.unplaced())? {
            Role::Reading => Ok(self.reading(register)),
            _ => Ok(self.settings.byte(register)),
        }
    }

    fn report(&mut self, source: usize, value: i32) -> Result<(), Fault> {
        let reported = Source::try_from(source)?;
        let report = reported.report(value)?;
        let fails = self.settings.exceeds(reported, value);
        self.marks.report(source, fails, false);
        loops::note(&mut self.own, &self.settings, report);
        Ok(())
    }

    fn stands(&self, source: usize) -> bool {
        self.marks.get(source).stands()
    }

    fn pulls(&self, _source: usize) -> bool {
        true
    }

    fn asserts(&self, _source: usize) -> bool {
        true
    }

    fn demand(&self, _source: usize, _fan: usize) -> u8 {
        255
    }

    fn forced(&self) -> bool {
        false
    }

    fn answer(&self, _fan: usize) -> u8 {
        255
    }

    fn base(&self, _fan: usize) -> u8 {
        loops::base(&self.own, &self.settings)
    }

    fn interrupt(&self, cause: bool) -> bool {
        cause
    }

    fn pin(&self, cause: bool) -> bool {
        !cause
    }

    fn check_write(register: u8, byte: u8) -> Result<(), Fault> {
        registers::check_write(role_at(register), byte)
    }

    fn is_setting(register: u8) -> bool {
        registers::is_setting(role_at(register))
    }

    fn setting(&self, register: u8) -> u8 {
        self.settings.byte(register)
    }
}
