// The worked examples of a control loop, run through the code.
ghost use Rattle.std.specs.Prelude.{◌≡◌, true, ◌&&◌, ◌==◌};
ghost use Rattle.control.specs.Examples.{WorkedExamples};
ghost use Rattle.control.specs.Loop.{loop_level};
ghost use Rattle.control.specs.Range.{degrees, is_code};

use crate::{Loop, Ramp, Range, Thermostat};

// The start and the hysteresis of most examples.
const AT_TWENTY: Thermostat = Thermostat {
    start: 20,
    hysteresis: 5,
};

// Whether the code gives what the examples say, as the definitions do.
pub fn worked_examples() -> bool
    ensures ran { result ≡ true }
    ensures theorem { WorkedExamples }
{
    levels() && turns()
}

#[tactic(auto, unfolding(crate::specs::Loop::ramp_level))]
fn levels() -> bool
    ensures ran { result ≡ true }
    ensures theorem { WorkedExamples }
{
    gives(true, 40, 20, 3, 170)
        && gives(true, 60, 20, 3, 255)
        && gives(true, 59, 20, 3, 250)
        && gives(true, 15, 20, 3, 85)
        && gives(AT_TWENTY.turned(false, 21), 21, 20, 3, 89)
        && gives(true, -9, -10, 0, 119)
}

fn turns() -> bool
    ensures { result ≡ true }
{
    !AT_TWENTY.turned(false, 20) && AT_TWENTY.turned(false, 21) && !AT_TWENTY.turned(true, 14)
}

// Whether a loop with minimum 85 and the range of this code is at the level `expected`. The parameters are the columns of the examples.
fn gives(on: bool, reading: i8, start: i8, code: u8, expected: u8) -> bool
    ensures { result ≡ (is_code code && loop_level on reading start (degrees code) 85 == expected) }
{
    Range::try_from(code).is_ok_and(|range| {
        let ramp = Ramp {
            start,
            range,
            minimum: 85,
        };
        Loop { on, reading }.level(ramp) == expected
    })
}
