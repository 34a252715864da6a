// When a control loop is on.
ghost use Rattle.std.specs.Prelude.{◌≡◌};
ghost use Rattle.control.specs.Laws.{OnSurvives};
ghost use Rattle.control.specs.Loop.{is_below, turned_by};

// A loop turns on above its start, and off more than the hysteresis below it.
#[derive(Clone, Copy, PartialEq, Eq, Debug)]
pub struct Thermostat {
    pub start: i8,
    pub hysteresis: u8,
}

impl Thermostat {
    // Whether a loop that was on or not is on after a report of `reading`.
    pub fn turned(self, on: bool, reading: i8) -> bool
        ensures is { result ≡ turned_by on reading self.start self.hysteresis }
        ensures survives { OnSurvives self.start self.hysteresis }
    {
        if reading > self.start {
            true
        } else if self.is_below(reading) {
            false
        } else {
            on
        }
    }

    // Whether the reading is more than the hysteresis below the start.
    fn is_below(self, reading: i8) -> bool
        ensures { result ≡ is_below reading self.start self.hysteresis }
    {
        // The difference is unsigned, so that it holds the whole way from 127 down to -128.
        reading < self.start && self.start.abs_diff(reading) > self.hysteresis
    }
}
