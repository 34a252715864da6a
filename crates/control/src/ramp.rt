// How a control loop that is on drives its fan.
ghost use Rattle.std.specs.Prelude.{◌≡◌, ◌≤◌};
ghost use Rattle.control.specs.Loop.{level_on, ramp_level};
ghost use Rattle.control.specs.Range.{degrees};

use crate::Range;

// The level at full duty.
const FULL: u8 = 255;

// The fan's level rises from the minimum at the start to full duty at the end of the range.
#[derive(Clone, Copy, PartialEq, Eq, Debug)]
pub struct Ramp {
    pub start: i8,
    pub range: Range,
    pub minimum: u8,
}

impl Ramp {
    pub(crate) fn level(self, reading: i8) -> u8
        ensures { result ≡ level_on reading self.start (degrees self.range.code) self.minimum }
    {
        if reading <= self.start {
            return self.minimum;
        }
        let rise = reading.abs_diff(self.start);
        if rise >= self.range.width() {
            return FULL;
        }
        self.rising(rise)
    }

    // The level at `rise` degrees above the start, within the range. It is at most full duty, so that it fits a byte.
    #[tactic(auto, using(crate::proofs::Slope::ramp_to), unfolding(crate::specs::Loop::ramp_level))]
    fn rising(self, rise: u8) -> u8
        requires { rise ≤ degrees self.range.code }
        ensures { result ≡ ramp_level self.minimum (degrees self.range.code) rise }
    {
        let share = u16::from(FULL - self.minimum) * u16::from(rise)
            / u16::from(self.range.width());
        (u16::from(self.minimum) + share) as u8
    }
}
