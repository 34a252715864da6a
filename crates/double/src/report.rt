// A report that is served: a source, and a value in that source's range.
ghost use Rattle.std.specs.Prelude.{◌≡◌, IfOk};
ghost use Rattle.std.specs.Result.{result_map_both};
ghost use Rattle.double.specs.Own.{reported_by};
ghost use Rattle.double.specs.Report.{source_of, value_of};
ghost use Rattle.double.specs.Sources.{served_source, taken_pin};
ghost use Rattle.double_settings.specs.Parts.{source_at};
ghost use Rattle.double_settings.specs.Settings.{settings_of};
ghost use Rattle.own.specs.State.{own_of};

use double_settings::parts::{Channel, Fan, FanSource, Source};
use double_settings::settings::Settings;
use fault::{Cause, Fault};
use own::Own;

// A single unit has other cases.
#[derive(Clone, Copy, PartialEq, Eq, Debug)]
pub enum Report {
    Missing(Fan, bool),
    Fault(Fan, bool),
    Tach(Fan, u8),
    HotPlug(Fan, bool),
    Temperature(Channel, i8),
}

// Whether a pin is set, from 0 or 1.
fn pin(value: i32) -> Result<bool, Fault>
    ensures { result ≡ taken_pin value }
{
    match value {
        0 => Ok(false),
        1 => Ok(true),
        _ => Err(Cause::ValueOutOfRange.unplaced()),
    }
}

impl Report {
    // Refused for a number that no source has, or a value outside the source's range.
    pub fn new(number: usize, value: i32) -> Result<Report, Fault>
        ensures answer { result_map_both source_of (λ fault. fault) result ≡ served_source value (source_at number) }
        ensures value { IfOk result (λ report. value_of report ≡ value) }
    {
        match Source::try_from(number)? {
            Source::OfFan(fan, FanSource::Missing) => Ok(Report::Missing(fan, pin(value)?)),
            Source::OfFan(fan, FanSource::Fault) => Ok(Report::Fault(fan, pin(value)?)),
            Source::OfFan(fan, FanSource::Tach) => Ok(Report::Tach(fan, u8::try_from(value)?)),
            Source::OfFan(fan, FanSource::HotPlug) => Ok(Report::HotPlug(fan, pin(value)?)),
            Source::Temperature(channel) => {
                Ok(Report::Temperature(channel, i8::try_from(value)?))
            }
        }
    }

    pub fn source(self) -> Source
        ensures { result ≡ source_of self }
    {
        match self {
            Report::Missing(fan, _) => Source::OfFan(fan, FanSource::Missing),
            Report::Fault(fan, _) => Source::OfFan(fan, FanSource::Fault),
            Report::Tach(fan, _) => Source::OfFan(fan, FanSource::Tach),
            Report::HotPlug(fan, _) => Source::OfFan(fan, FanSource::HotPlug),
            Report::Temperature(channel, _) => Source::Temperature(channel),
        }
    }

    pub fn value(self) -> i32
        ensures { result ≡ value_of self }
    {
        match self {
            Report::Missing(_, set) | Report::Fault(_, set) | Report::HotPlug(_, set) => {
                i32::from(set)
            }
            Report::Tach(_, speed) => i32::from(speed),
            Report::Temperature(_, degrees) => i32::from(degrees),
        }
    }

    // Puts it into the own state, which keeps tachometers and temperatures.
    pub(crate) fn keep(self, own: &mut Own<2, 3>, settings: &Settings)
        ensures { own_of own.new ≡ reported_by (settings_of settings.now) (own_of own.old) (value_of self) (source_of self) }
    {
        match self {
            Report::Tach(fan, speed) => own.set_tach(fan.into(), speed),
            Report::Temperature(channel, degrees) => {
                own.hear(channel.into(), degrees, settings.thermostat(channel));
            }
            Report::Missing(..) | Report::Fault(..) | Report::HotPlug(..) => {}
        }
    }
}
