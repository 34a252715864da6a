// The settings of a double unit, and what they say.
ghost use Rattle.std.specs.Prelude.{◌≡◌, ◌≤◌, int_lt};
ghost use Rattle.double_settings.specs.Registers.{first_bytes, power_on_byte, role_at};
ghost use Rattle.double_settings.specs.Settings.{settings_of, monitoring, forces_line, interrupt_by, pin_by, alarm_level, minimum, hot_plug_level, answer_of, start_at, code_at, hysteresis_at, thermostat_at, alarms, drives, limit_of, holds, has_effect, pulls_by, asserts_by, demand_by_bits, demand_by};
ghost use Rattle.quantity.specs.Quantities.{bit};
ghost use Rattle.registers.specs.Roles.{answer_to, stored_as};
ghost use Rattle.unit.specs.Steps.{after};

use crate::parts::{Channel, Fan, FanSource, Source};
use crate::register::role_at;
use crate::strap::Strap;
use control::{Ramp, Range, Thermostat};
use fault::Fault;
use quantity::{byte_if, high_level, is_bit, low_level, signed};
use registers::store::Store;

// The three range codes stand at 88h to 8Ah. Like a store, these have no model. Questions that a single unit
// has too are a line or a struct each, most of other registers: a type over all their numbers would be no plainer.
#[derive(Drop)]
pub struct Settings {
    pub store: Store<3, 0x88>,
}

// Every byte that is not 0 at power-on: control at 01h, the fans that each channel drives, the start of each loop, and the rest.
fn power_on_bytes(strap: Strap) -> [(u8, u8); 19]
    ensures { result ≡ first_bytes strap.0 }
{
    let control = byte_if(strap.is_automatic(), 0x10);
    let driven = byte_if(strap.is_automatic(), 0x03);
    let start = strap.start();
    [
        (0x01, control),
        (0x48, driven),
        (0x49, driven),
        (0x4a, driven),
        (0x60, 0xff),
        (0x61, 0xff),
        (0x68, 0x2f),
        (0x69, 0x2f),
        (0x78, 0xff),
        (0x79, 0xff),
        (0x80, start),
        (0x81, start),
        (0x82, start),
        (0x88, 0x51),
        (0x89, 0x51),
        (0x8a, 0x51),
        (0x90, 0x50),
        (0x91, 0x64),
        (0x92, 0x64),
    ]
}

impl Settings {
    pub fn power_on(strap: Strap) -> Settings
        ensures { settings_of result ≡ power_on_byte strap.0 }
    {
        Settings {
            store: Store::power_on(&power_on_bytes(strap)),
        }
    }

    pub fn byte(&self, register: u8) -> u8
        ensures { result ≡ settings_of self.now register }
    {
        self.store.byte(register)
    }

    fn is_set(&self, register: u8, k: u8) -> bool
        ensures { result ≡ bit (settings_of self.now register) k }
    {
        is_bit(self.byte(register), k)
    }

    pub fn write(&mut self, register: u8, byte: u8) -> Result<(), Fault>
        ensures answer { result ≡ answer_to (role_at register) byte }
        ensures after { settings_of self.new ≡ after result (stored_as (role_at register) (settings_of self.old) register byte) (settings_of self.old) }
    {
        self.store.write(role_at(register), register, byte)
    }

    pub fn is_monitoring(&self) -> bool
        ensures { result ≡ monitoring (settings_of self.now) }
    {
        self.is_set(0x01, 4)
    }

    pub fn forces_line(&self) -> bool
        ensures { result ≡ forces_line (settings_of self.now) }
    {
        self.is_set(0x01, 5)
    }

    // INT, with or without a standing cause that asserts it.
    pub fn interrupt(&self, cause: bool) -> bool
        ensures { result ≡ interrupt_by (settings_of self.now) cause }
    {
        self.is_set(0x01, 6) || (!self.is_set(0x01, 1) && cause)
    }

    // The level of the INT pin, likewise.
    pub fn pin(&self, cause: bool) -> bool
        ensures { result ≡ pin_by (settings_of self.now) cause }
    {
        self.is_set(0x01, 7) == self.interrupt(cause)
    }

    pub fn alarm_level(&self, fan: Fan) -> u8
        ensures { result ≡ alarm_level (settings_of self.now) fan }
    {
        high_level(self.byte(0x60 + fan.index()))
    }

    pub fn minimum(&self, fan: Fan) -> u8
        ensures { result ≡ minimum (settings_of self.now) fan }
    {
        low_level(self.byte(0x60 + fan.index()))
    }

    fn hot_plug_level(&self, fan: Fan) -> u8
        ensures { result ≡ hot_plug_level (settings_of self.now) fan }
    {
        low_level(self.byte(0x68 + fan.index()))
    }

    // The level with which a fan answers a low line.
    pub fn answer(&self, fan: Fan) -> u8
        ensures { result ≡ answer_of (settings_of self.now) fan }
    {
        let level = self.alarm_level(fan);
        byte_if(self.is_set(0xf0, fan.index()), level)
    }

    pub fn start(&self, channel: Channel) -> i8
        ensures { result ≡ start_at (settings_of self.now) channel }
    {
        signed(self.byte(0x80 + channel.index()))
    }

    pub fn range(&self, channel: Channel) -> Range
        ensures { result.code ≡ code_at (settings_of self.now) channel }
    {
        self.store.range(0x88 + channel.index())
    }

    pub fn hysteresis(&self, channel: Channel) -> u8
        ensures { result ≡ hysteresis_at (settings_of self.now) channel }
    {
        self.byte(0x88 + channel.index()) / 16
    }

    // When a report turns the loop of a channel on.
    pub fn thermostat(&self, channel: Channel) -> Thermostat
        ensures { result ≡ thermostat_at (settings_of self.now) channel }
    {
        Thermostat {
            start: self.start(channel),
            hysteresis: self.hysteresis(channel),
        }
    }

    // How the loop of a channel drives a fan.
    pub fn ramp(&self, channel: Channel, fan: Fan) -> Ramp
        ensures start { result.start ≡ start_at (settings_of self.now) channel }
        ensures range { result.range.code ≡ code_at (settings_of self.now) channel }
        ensures minimum { result.minimum ≡ minimum (settings_of self.now) fan }
    {
        Ramp {
            start: self.start(channel),
            range: self.range(channel),
            minimum: self.minimum(fan),
        }
    }

    fn alarms(&self, channel: Channel) -> bool
        ensures { result ≡ alarms (settings_of self.now) channel }
    {
        self.is_set(0x40 + channel.index(), 1)
    }

    pub fn drives(&self, channel: Channel, fan: Fan) -> bool
        ensures { result ≡ drives (settings_of self.now) channel fan }
    {
        let register = 0x48 + channel.index();
        self.is_set(register, fan.index())
    }

    // The value above which a report of the source fails.
    fn limit(&self, source: Source) -> i16
        ensures { result ≡ limit_of (settings_of self.now) source }
    {
        match source {
            Source::OfFan(fan, FanSource::Tach) => i16::from(self.byte(0x78 + fan.index())),
            Source::OfFan(_, _) => 0,
            Source::Temperature(channel) => i16::from(signed(self.byte(0x90 + channel.index()))),
        }
    }

    pub fn fails(&self, source: Source, value: i32) -> bool
        ensures { result ≡ int_lt (limit_of (settings_of self.now) source) value }
    {
        i32::from(self.limit(source)) < value
    }

    // Whether a failing report of the source is held.
    pub fn holds(&self, source: Source) -> bool
        ensures { result ≡ holds (settings_of self.now) source }
    {
        match source {
            Source::OfFan(_, _) => true,
            Source::Temperature(channel) => self.alarms(channel),
        }
    }

    // The bit of a source for one effect, by its place in the registers, which an enum would only name again: of a fan's sources the four bits from `first` on, of a temperature this bit.
    fn has_effect(&self, source: Source, first: u8, bit: u8) -> bool
        requires { first ≤ 4 }
        ensures { result ≡ has_effect (settings_of self.now) first bit source }
    {
        match source {
            Source::OfFan(fan, kind) => self.is_set(0x18 + fan.index(), first + kind.index()),
            Source::Temperature(channel) => self.is_set(0x40 + channel.index(), bit),
        }
    }

    // A fan's sources by bits 4 to 7, a temperature by bit 2.
    pub fn pulls(&self, source: Source) -> bool
        ensures { result ≡ pulls_by (settings_of self.now) source }
    {
        self.has_effect(source, 4, 2)
    }

    // A fan's sources by bits 0 to 3, a temperature by bit 0.
    pub fn asserts(&self, source: Source) -> bool
        ensures { result ≡ asserts_by (settings_of self.now) source }
    {
        self.has_effect(source, 0, 0)
    }

    // What the bits of a fan's sources ask of a fan: its alarm level, its hot-plug level, or the greater of both.
    fn demand_by_bits(&self, register: u8, fan: Fan) -> u8
        ensures { result ≡ demand_by_bits (settings_of self.now) register fan }
    {
        let index = fan.index();
        let alarm = byte_if(self.is_set(register, index), self.alarm_level(fan));
        let hot_plug = byte_if(self.is_set(register, 2 + index), self.hot_plug_level(fan));
        alarm.max(hot_plug)
    }

    // The level that the source asks of a fan, 0 for none.
    pub fn demand(&self, source: Source, fan: Fan) -> u8
        ensures { result ≡ demand_by (settings_of self.now) source fan }
    {
        match source {
            Source::OfFan(of, _) => self.demand_by_bits(0x20 + of.index(), fan),
            Source::Temperature(channel) => {
                let asks = self.alarms(channel) && self.drives(channel, fan);
                byte_if(asks, self.alarm_level(fan))
            }
        }
    }
}
