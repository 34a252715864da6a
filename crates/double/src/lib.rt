// The double unit: two fans with their sources, and three temperatures.
#![tactic(auto)]

ghost use Rattle.std.specs.Prelude.{◌≡◌, ◌%◌, refl};
ghost use Rattle.double.specs.Examples.{WorkedExamples};
ghost use Rattle.double.specs.Kinds.{alarm_byte, double, shown};
ghost use Rattle.double.specs.Meaning.{noted, state_of};
ghost use Rattle.double.specs.Report.{source_of, value_of};
ghost use Rattle.double.specs.Status.{status_of};
ghost use Rattle.double_settings.specs.Parts.{source_number};
ghost use Rattle.double_settings.specs.Settings.{settings_of};
ghost use Rattle.own.specs.State.{own_of};
ghost use Rattle.unit.specs.Kind.{made};
ghost use Rattle.unit.specs.Parts.{marks_of};
ghost use Rattle.double.specs.Laws;

use base::fan_base;
use double_settings::parts::{Channel, Fan, FanSource, Source};
use double_settings::register::role_at;
use double_settings::settings::Settings;
use double_settings::strap::Strap;
use fault::{Cause, Fault};
use own::Own;
use quantity::{byte_if, byte_of};
use report::Report;
use sources::end_holds;
use status::status_byte;
use unit::Unit;
use unit::mark::Mark;
use unit::marks::Marks;

pub mod base;
pub mod report;
pub mod sources;
pub mod status;

#[derive(Drop)]
pub struct Double {
    strap: Strap,
    settings: Settings,
    own: Own<2, 3>,
    marks: Marks<11>,
}

impl Double {
    // As made. Any number is taken for a strap, modulo 8, as it always was: a public function takes no less.
    pub fn new(strap: u8) -> Double
        ensures made { state_of result ≡ made double (strap % 8) }
        ensures examples { WorkedExamples }
    {
        Double::with_strap(Strap(strap % 8))
    }

    fn with_strap(strap: Strap) -> Double
        ensures { state_of result ≡ made double strap.0 }
    {
        Double {
            strap,
            settings: Settings::power_on(strap),
            own: Own::fresh(),
            marks: Marks::clear(),
        }
    }

    // A report changes one source's mark, and the own state.
    fn note(&mut self, report: Report)
        ensures { state_of self.new ≡ noted (state_of self.old) (source_of report) (value_of report) }
    {
        let source = report.source();
        let fails = self.settings.fails(source, report.value());
        let holds = self.settings.holds(source);
        self.marks.report(source.number(), fails, holds);
        report.keep(&mut self.own, &self.settings);
    }

    fn mark(&self, source: Source) -> Mark
        ensures { result ≡ marks_of self.now.marks (source_number source) }
    {
        self.marks.get(source.number())
    }

    // The marks of a fan's sources.
    fn status(&self, fan: Fan) -> u8
        ensures { result ≡ status_of (marks_of self.now.marks) fan }
    {
        let missing = self.mark(Source::OfFan(fan, FanSource::Missing));
        let fault = self.mark(Source::OfFan(fan, FanSource::Fault));
        let tach = self.mark(Source::OfFan(fan, FanSource::Tach));
        let hot_plug = self.mark(Source::OfFan(fan, FanSource::HotPlug));
        status_byte(missing, fault, tach, hot_plug)
    }

    // The settings of a temperature, with its held bit.
    fn alarm(&self, channel: Channel) -> u8
        ensures { result ≡ alarm_byte (settings_of self.now.settings) (marks_of self.now.marks) channel }
    {
        let held = self.mark(Source::Temperature(channel)).held;
        self.settings.byte(0x40 + channel.index()) | byte_if(held, 0x80)
    }

    // The byte that a register shows: by number, as registers come, since a role says only what kind of register one is.
    fn shown(&self, register: u8) -> u8
        ensures { result ≡ shown (settings_of self.now.settings) (marks_of self.now.marks) (own_of self.now.own) register }
    {
        match register {
            0x10 => self.status(Fan::First),
            0x11 => self.status(Fan::Second),
            0x40 => self.alarm(Channel::Local),
            0x41 => self.alarm(Channel::Remote1),
            0x42 => self.alarm(Channel::Remote2),
            0x70 => self.own.tach(Fan::First.into()),
            0x71 => self.own.tach(Fan::Second.into()),
            0xa0 => byte_of(self.own.loop_of(Channel::Local.into()).reading),
            0xa1 => byte_of(self.own.loop_of(Channel::Remote1.into()).reading),
            0xa2 => byte_of(self.own.loop_of(Channel::Remote2.into()).reading),
            _ => self.settings.byte(register),
        }
    }
}

// Some methods read as a single unit's, which says why.
impl Unit for Double {
    const FANS: usize = 2;

    const SOURCES: usize = 11;

    ghost FANS = { 2 };

    ghost SOURCES = { 11 };

    ghost kind = { double };

    ghost state = { state_of };

    ghost fans_are = { refl };

    ghost sources_are = { refl };

    ghost ordered = { Laws.ordered };

    ghost faithful = { Laws.faithful };

    fn reset(&mut self) {
        *self = Double::with_strap(self.strap);
    }

    fn write(&mut self, register: u8, byte: u8) -> Result<(), Fault> {
        self.settings.write(register, byte)?;
        end_holds(&mut self.marks, register, byte);
        Ok(())
    }

    fn read(&self, register: u8) -> Result<u8, Fault> {
        role_at(register).ok_or(Cause::NoRegister.unplaced())?;
        Ok(self.shown(register))
    }

    fn report(&mut self, source: usize, value: i32) -> Result<(), Fault> {
        self.note(Report::new(source, value)?);
        Ok(())
    }

    fn stands(&self, source: usize) -> bool {
        self.marks.get(source).stands()
    }

    fn pulls(&self, source: usize) -> bool {
        Source::try_from(source).is_ok_and(|source| self.settings.pulls(source))
    }

    fn asserts(&self, source: usize) -> bool {
        Source::try_from(source).is_ok_and(|source| self.settings.asserts(source))
    }

    fn demand(&self, source: usize, fan: usize) -> u8 {
        // A match, since it asks for a source and a fan together.
        match (Source::try_from(source), Fan::try_from(fan)) {
            (Ok(source), Ok(fan)) => self.settings.demand(source, fan),
            _ => 0,
        }
    }

    fn forced(&self) -> bool {
        self.settings.forces_line()
    }

    fn answer(&self, fan: usize) -> u8 {
        Fan::try_from(fan).map_or(0, |fan| self.settings.answer(fan))
    }

    fn base(&self, fan: usize) -> u8 {
        Fan::try_from(fan).map_or(0, |fan| {
            fan_base(self.strap, &self.settings, &self.own, fan)
        })
    }

    fn interrupt(&self, cause: bool) -> bool {
        self.settings.interrupt(cause)
    }

    fn pin(&self, cause: bool) -> bool {
        self.settings.pin(cause)
    }

    fn check_write(register: u8, byte: u8) -> Result<(), Fault> {
        registers::check_write(role_at(register), byte)
    }

    fn is_setting(register: u8) -> bool {
        registers::is_setting(role_at(register))
    }

    fn setting(&self, register: u8) -> u8 {
        self.settings.byte(register)
    }
}
