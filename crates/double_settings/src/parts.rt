// The two fans, three temperature channels and eleven sources of a double unit.
ghost use Rattle.std.specs.Prelude.{◌≡◌, ◌<◌, Some, None, MatchResult, slice_get};
ghost use Rattle.std.specs.Option.{ok_or};
ghost use Rattle.double_settings.specs.Parts.{fan_at, fan_index, channel_index, kind_index, source_at, source_number};
ghost use Rattle.fault.specs.Faults.{unplaced};
ghost use Rattle.fault.specs.declared.Cause.TheVariants.{NoSourceOrFan};

use fault::{Cause, Fault};

#[derive(Clone, Copy, PartialEq, Eq, Debug)]
pub enum Fan {
    First = 0,
    Second = 1,
}

#[derive(Clone, Copy, PartialEq, Eq, Debug)]
pub enum Channel {
    Local = 0,
    Remote1 = 1,
    Remote2 = 2,
}

// What is reported of a fan.
#[derive(Clone, Copy, PartialEq, Eq, Debug)]
pub enum FanSource {
    Missing = 0,
    Fault = 1,
    Tach = 2,
    HotPlug = 3,
}

#[derive(Clone, Copy, PartialEq, Eq, Debug)]
pub enum Source {
    OfFan(Fan, FanSource),
    Temperature(Channel),
}

// The part with this number, counted from 0.
fn numbered<T: Copy>(parts: &[T], number: usize) -> Result<T, Fault>
    ensures { result ≡ ok_or (slice_get parts.now number) (unplaced NoSourceOrFan) }
{
    parts
        .get(number)
        .copied()
        .ok_or(Cause::NoSourceOrFan.unplaced())
}

impl Fan {
    pub const ALL: [Fan; 2] = [Fan::First, Fan::Second];

    pub fn index(self) -> u8
        ensures is { result ≡ fan_index self }
        ensures small { result < 2 }
    {
        self as u8
    }
}

impl From<Fan> for usize {
    ghost from_gives = { λ fan number. number ≡ fan_index fan };

    fn from(fan: Fan) -> usize {
        usize::from(fan.index())
    }
}

// Counted from 0.
impl TryFrom<usize> for Fan {
    type Error = Fault;

    ghost try_from_gives = { λ number r. MatchResult r (λ fan. fan_at number ≡ Some fan) (λ fault. (fan_at number ≡ None) × (fault ≡ unplaced NoSourceOrFan)) };

    fn try_from(number: usize) -> Result<Fan, Fault> {
        numbered(&Fan::ALL, number)
    }
}

impl Channel {
    pub const ALL: [Channel; 3] = [Channel::Local, Channel::Remote1, Channel::Remote2];

    pub fn index(self) -> u8
        ensures is { result ≡ channel_index self }
        ensures small { result < 3 }
    {
        self as u8
    }
}

impl From<Channel> for usize {
    ghost from_gives = { λ channel number. number ≡ channel_index channel };

    fn from(channel: Channel) -> usize {
        usize::from(channel.index())
    }
}

impl FanSource {
    pub fn index(self) -> u8
        ensures is { result ≡ kind_index self }
        ensures small { result < 4 }
    {
        self as u8
    }
}

impl Source {
    pub const ALL: [Source; 11] = [
        Source::OfFan(Fan::First, FanSource::Missing),
        Source::OfFan(Fan::First, FanSource::Fault),
        Source::OfFan(Fan::First, FanSource::Tach),
        Source::OfFan(Fan::First, FanSource::HotPlug),
        Source::OfFan(Fan::Second, FanSource::Missing),
        Source::OfFan(Fan::Second, FanSource::Fault),
        Source::OfFan(Fan::Second, FanSource::Tach),
        Source::OfFan(Fan::Second, FanSource::HotPlug),
        Source::Temperature(Channel::Local),
        Source::Temperature(Channel::Remote1),
        Source::Temperature(Channel::Remote2),
    ];

    // Counted from 0. A method, as `index` is, since its contract bounds it too, which that of a `From` cannot.
    pub fn number(self) -> usize
        ensures is { result ≡ source_number self }
        ensures small { result < 11 }
    {
        match self {
            Source::OfFan(fan, kind) => usize::from(4 * fan.index() + kind.index()),
            Source::Temperature(channel) => usize::from(8 + channel.index()),
        }
    }
}

impl TryFrom<usize> for Source {
    type Error = Fault;

    ghost try_from_gives = { λ number r. MatchResult r (λ source. source_at number ≡ Some source) (λ fault. (source_at number ≡ None) × (fault ≡ unplaced NoSourceOrFan)) };

    fn try_from(number: usize) -> Result<Source, Fault> {
        numbered(&Source::ALL, number)
    }
}
