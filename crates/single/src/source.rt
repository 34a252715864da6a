// The three sources of a single unit, and what is reported of one.
ghost use Rattle.std.specs.Prelude.{◌≡◌, ◌<◌, ◌≤◌, IfErr, IfOk, MatchResult, is_ok};
ghost use Rattle.fault.specs.Faults.{unplaced};
ghost use Rattle.fault.specs.declared.Cause.TheVariants.{NoSourceOrFan, ValueOutOfRange};
ghost use Rattle.single.specs.Kinds.{single};
ghost use Rattle.single.specs.Sources.{channel_index, number_of, source_number, value_of};
ghost use Rattle.unit.specs.Answers.{in_range};

use fault::{Cause, Fault};

// The two temperatures. A double unit has three, and so an enum of its own.
#[derive(Clone, Copy, PartialEq, Eq, Debug)]
pub enum Channel {
    Local = 0,
    Remote = 1,
}

// Like the channels, sources and reports have other cases in a double unit.
#[derive(Clone, Copy, PartialEq, Eq, Debug)]
pub enum Source {
    Tach,
    Temperature(Channel),
}

// A reading of a source, in its range.
#[derive(Clone, Copy, PartialEq, Eq, Debug)]
pub enum Report {
    Tach(u8),
    Temperature(Channel, i8),
}

impl Channel {
    pub fn index(self) -> u8
        ensures is { result ≡ channel_index self }
        ensures small { result < 2 }
    {
        self as u8
    }
}

impl From<Channel> for usize {
    ghost from_gives = { λ channel number. number ≡ channel_index channel };

    fn from(channel: Channel) -> usize {
        usize::from(channel.index())
    }
}

impl TryFrom<usize> for Source {
    type Error = Fault;

    ghost try_from_gives = { λ number r. MatchResult r (λ source. source_number source ≡ number) (λ fault. (fault ≡ unplaced NoSourceOrFan) × (3 ≤ number)) };

    fn try_from(number: usize) -> Result<Source, Fault> {
        match number {
            0 => Ok(Source::Tach),
            1 => Ok(Source::Temperature(Channel::Local)),
            2 => Ok(Source::Temperature(Channel::Remote)),
            _ => Err(Cause::NoSourceOrFan.unplaced()),
        }
    }
}

impl Source {
    // A report of this value, unless it is outside the source's range.
    pub fn report(self, value: i32) -> Result<Report, Fault>
        ensures served { is_ok result ≡ in_range single (source_number self) value }
        ensures told { IfOk result (λ report. (number_of report ≡ source_number self) × (value_of report ≡ value)) }
        ensures refused { IfErr result (λ fault. fault ≡ unplaced ValueOutOfRange) }
    {
        match self {
            Source::Tach => Ok(Report::Tach(u8::try_from(value)?)),
            Source::Temperature(channel) => {
                Ok(Report::Temperature(channel, i8::try_from(value)?))
            }
        }
    }
}
