// A control loop at a moment.
ghost use Rattle.std.specs.Prelude.{◌≡◌};
ghost use Rattle.control.specs.Laws.{LevelBounded, LevelRises};
ghost use Rattle.control.specs.Range.{degrees};
ghost use Rattle.control.specs.State.{heard, level_in, off};

use crate::{Ramp, Thermostat};

// Whether it is on, and its last reading, which it has while it is off too.
#[derive(Clone, Copy, PartialEq, Eq, Debug)]
pub struct Loop {
    pub on: bool,
    pub reading: i8,
}

impl Loop {
    // As after a reset. The name says which state it is, as `default` would not.
    pub fn off() -> Loop
        ensures { result ≡ off }
    {
        Loop {
            on: false,
            reading: 0,
        }
    }

    // After a report of `reading`.
    pub fn reported(self, reading: i8, thermostat: Thermostat) -> Loop
        ensures { result ≡ heard self reading thermostat.start thermostat.hysteresis }
    {
        Loop {
            on: thermostat.turned(self.on, reading),
            reading,
        }
    }

    // The level that it asks for: by the ramp, and 0 while it is off.
    #[tactic(auto, using(crate::proofs::Rising::level_bounded, crate::proofs::Rising::level_rises))]
    pub fn level(self, ramp: Ramp) -> u8
        ensures is { result ≡ level_in self ramp.start (degrees ramp.range.code) ramp.minimum }
        ensures rises { LevelRises ramp.start (degrees ramp.range.code) ramp.minimum }
        ensures bounded { LevelBounded ramp.start (degrees ramp.range.code) ramp.minimum }
    {
        if self.on { ramp.level(self.reading) } else { 0 }
    }
}
