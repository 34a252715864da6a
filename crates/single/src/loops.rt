// What a report changes in the own state of a single unit, and what its loops ask of its fan. The own state and the settings stand apart
// here, as the unit's two fields, and not in a struct of their own: `base` answers for any two of them.
ghost use Rattle.std.specs.Prelude.{◌≡◌};
ghost use Rattle.own.specs.State.{own_of};
ghost use Rattle.single.specs.Kinds.{base_from, level_from, reported_to};
ghost use Rattle.single.specs.Settings.{settings_of};
ghost use Rattle.single.specs.Sources.{channel_index, number_of, value_of};

use crate::settings::Settings;
use crate::source::{Channel, Report};
use control::Loop;
use own::Own;

pub(crate) fn loop_of(own: &Own<1, 2>, channel: Channel) -> Loop
    ensures { result ≡ (own_of own.now).loops (channel_index channel) }
{
    own.loop_of(channel.into())
}

pub(crate) fn note(own: &mut Own<1, 2>, settings: &Settings, report: Report)
    ensures { own_of own.new ≡ reported_to (settings_of settings.now) (own_of own.old) (number_of report) (value_of report) }
{
    match report {
        Report::Tach(reading) => own.set_tach(0, reading),
        Report::Temperature(channel, reading) => {
            own.hear(channel.into(), reading, settings.thermostat(channel));
        }
    }
}

// What the loop of a channel asks of the fan.
fn loop_level(own: &Own<1, 2>, settings: &Settings, channel: Channel) -> u8
    ensures { result ≡ level_from (settings_of settings.now) channel ((own_of own.now).loops (channel_index channel)) }
{
    loop_of(own, channel).level(settings.ramp(channel))
}

// The fan's level before any cause or line.
pub fn base(own: &Own<1, 2>, settings: &Settings) -> u8
    ensures { result ≡ base_from (settings_of settings.now) (own_of own.now) }
{
    if !settings.is_monitoring() {
        return 255;
    }
    // Two loops and one `max`: a fold over them would be no plainer.
    let local = loop_level(own, settings, Channel::Local);
    let remote = loop_level(own, settings, Channel::Remote);
    local.max(remote)
}
