// The base of a double unit's fan: its level before any cause or line. The parts of a unit are parameters, since the base answers for any strap,
// settings and own state together.
ghost use Rattle.std.specs.Prelude.{◌≡◌};
ghost use Rattle.double.specs.Base.{IsBase, base_by, driven_level, is_driven, loops_level};
ghost use Rattle.double_settings.specs.Settings.{settings_of};
ghost use Rattle.own.specs.State.{own_of};

use double_settings::parts::{Channel, Fan};
use double_settings::settings::Settings;
use double_settings::strap::Strap;
use own::Own;

// What the loop of a channel asks of a fan, 0 if the channel does not drive it.
fn driven_level(settings: &Settings, own: &Own<2, 3>, channel: Channel, fan: Fan) -> u8
    ensures { result ≡ driven_level (settings_of settings.now) (own_of own.now) fan channel }
{
    if settings.drives(channel, fan) {
        own.loop_of(channel.into())
            .level(settings.ramp(channel, fan))
    } else {
        0
    }
}

// The greatest level of the loops that drive the fan.
fn loops_level(settings: &Settings, own: &Own<2, 3>, fan: Fan) -> u8
    ensures { result ≡ loops_level (settings_of settings.now) (own_of own.now) fan }
{
    Channel::ALL.iter().fold(0, |level, channel| {
        driven_level(settings, own, *channel, fan).max(level)
    })
}

// Whether some channel drives the fan.
fn is_driven(settings: &Settings, fan: Fan) -> bool
    ensures { result ≡ is_driven (settings_of settings.now) fan }
{
    Channel::ALL
        .iter()
        .any(|channel| settings.drives(*channel, fan))
}

#[tactic(auto, using(crate::proofs::Based::is_base_by))]
pub fn fan_base(strap: Strap, settings: &Settings, own: &Own<2, 3>, fan: Fan) -> u8
    ensures value { result ≡ base_by strap.0 (settings_of settings.now) (own_of own.now) fan }
    ensures is { IsBase strap.0 (settings_of settings.now) (own_of own.now) fan result }
{
    if !settings.is_monitoring() {
        settings.alarm_level(fan)
    } else if strap.is_automatic() && is_driven(settings, fan) {
        loops_level(settings, own, fan)
    } else {
        settings.minimum(fan)
    }
}
