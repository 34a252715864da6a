// What the settings say.
ghost use Rattle.std.specs.Prelude.{◌≡◌, int_lt};
ghost use Rattle.registers.specs.Roles.{answer_to, named_bits};
ghost use Rattle.single.specs.Registers.{power_on_byte, role_at};
ghost use Rattle.single.specs.Settings.{code_at, has_room, limit, minimum, monitoring, placed_in, settings_of, start_at, stored_in};
ghost use Rattle.single.specs.Sources.{source_number};
ghost use Rattle.unit.specs.Steps.{after, put};

use super::Settings;
use crate::register::role_at;
use crate::source::{Channel, Source};
use control::{Ramp, Range, Thermostat};
use fault::Fault;
use quantity::{is_bit, low_level, signed};
use registers::store::Store;

// In degrees.
const HYSTERESIS: u8 = 5;

// Every byte that is not 0 at power-on.
const POWER_ON: [(u8, u8); 9] = [
    (0x00, 0x10),
    (0x10, 0x05),
    (0x18, 0x20),
    (0x19, 0x20),
    (0x1a, 0x03),
    (0x1b, 0x03),
    (0x1c, 0x50),
    (0x1d, 0x64),
    (0x1e, 0xff),
];

// Whether a byte fits its register: where a range code stands alone, only a code does.
fn has_room(register: u8, byte: u8) -> bool
    ensures { result ≡ has_room register byte }
{
    byte <= 4 || !matches!(register, 0x1a..=0x1b)
}

// Questions that a double unit has too stand here again: a type over all their register numbers would be no plainer.
impl Settings {
    pub fn power_on() -> Settings
        ensures { settings_of result ≡ power_on_byte }
    {
        Settings {
            store: Store::power_on(&POWER_ON),
        }
    }

    pub fn byte(&self, register: u8) -> u8
        ensures { result ≡ settings_of self.now register }
    {
        self.store.byte(register)
    }

    #[tactic(auto, using(crate::proofs::Stored::written))]
    pub fn write(&mut self, register: u8, byte: u8) -> Result<(), Fault>
        ensures answer { result ≡ answer_to (role_at register) byte }
        ensures after { settings_of self.new ≡ after result (put (settings_of self.old) register (named_bits (role_at register) byte)) (settings_of self.old) }
    {
        self.store.write(role_at(register), register, byte)
    }

    // A write that is served; one that is not leaves the settings as they are.
    #[tactic(auto, using(crate::proofs::Stored::written_if))]
    pub fn store(&mut self, register: u8, byte: u8)
        ensures { settings_of self.new ≡ stored_in (settings_of self.old) register byte }
    {
        let _ = self.write(register, byte);
    }

    // Puts any byte at any register, as no write does; where a range code stands alone, only a code.
    pub fn put(&mut self, register: u8, byte: u8)
        ensures { settings_of self.new ≡ placed_in (settings_of self.old) register byte }
    {
        if has_room(register, byte) {
            self.store.put(register, byte);
        }
    }

    pub fn is_monitoring(&self) -> bool
        ensures { result ≡ monitoring (settings_of self.now) }
    {
        is_bit(self.byte(0x00), 4)
    }

    pub fn minimum(&self) -> u8
        ensures { result ≡ minimum (settings_of self.now) }
    {
        low_level(self.byte(0x10))
    }

    pub fn start(&self, channel: Channel) -> i8
        ensures { result ≡ start_at (settings_of self.now) channel }
    {
        signed(self.byte(0x18 + channel.index()))
    }

    pub fn range(&self, channel: Channel) -> Range
        ensures { result.code ≡ code_at (settings_of self.now) channel }
    {
        self.store.range(0x1a + channel.index())
    }

    // When the loop of a channel is on.
    pub fn thermostat(&self, channel: Channel) -> Thermostat
        ensures start { result.start ≡ start_at (settings_of self.now) channel }
        ensures hysteresis { result.hysteresis ≡ 5 }
    {
        Thermostat {
            start: self.start(channel),
            hysteresis: HYSTERESIS,
        }
    }

    // How it drives the fan then.
    pub fn ramp(&self, channel: Channel) -> Ramp
        ensures start { result.start ≡ start_at (settings_of self.now) channel }
        ensures range { result.range.code ≡ code_at (settings_of self.now) channel }
        ensures minimum { result.minimum ≡ minimum (settings_of self.now) }
    {
        Ramp {
            start: self.start(channel),
            range: self.range(channel),
            minimum: self.minimum(),
        }
    }

    // Whether a report of this value fails. It answers for any number: a source that is not there has the limit of the last one.
    pub fn fails(&self, source: usize, value: i32) -> bool
        ensures { result ≡ int_lt (limit (settings_of self.now) source) value }
    {
        let source = Source::try_from(source).unwrap_or(Source::Temperature(Channel::Remote));
        self.exceeds(source, value)
    }

    pub(crate) fn exceeds(&self, source: Source, value: i32) -> bool
        ensures { result ≡ int_lt (limit (settings_of self.now) (source_number source)) value }
    {
        i32::from(self.limit(source)) < value
    }

    // The value above which a report of the source fails.
    fn limit(&self, source: Source) -> i16
        ensures { result ≡ limit (settings_of self.now) (source_number source) }
    {
        match source {
            Source::Tach => i16::from(self.byte(0x1e)),
            Source::Temperature(channel) => i16::from(signed(self.byte(0x1c + channel.index()))),
        }
    }
}
