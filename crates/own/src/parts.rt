// The readings and loops, each by the number of its fan or channel. One is changed at a time, and the others stay as they were. Both have their
// methods, since a generic struct with an array of a type parameter asks for its size at each call.
ghost use Rattle.std.specs.Prelude.{◌≡◌};
ghost use Rattle.control.specs.State.{heard};
ghost use Rattle.own.specs.State.{fresh, if_there, own_of, with_loop, with_tach};

use super::Own;
use control::{Loop, Thermostat};

impl<const FANS: usize, const CHANNELS: usize> Own<FANS, CHANNELS> {
    // As after a reset: no reading, and every loop off.
    pub fn fresh() -> Own<FANS, CHANNELS>
        ensures { own_of result ≡ fresh }
    {
        Own {
            tachs: [0; FANS],
            loops: [Loop::off(); CHANNELS],
        }
    }

    // The last tachometer reading of a fan, 0 for one that is not there.
    pub fn tach(&self, fan: usize) -> u8
        ensures { result ≡ (own_of self.now).tachs fan }
    {
        self.tachs.get(fan).copied().unwrap_or(0)
    }

    // The loop of a channel, off for one that is not there.
    pub fn loop_of(&self, channel: usize) -> Loop
        ensures { result ≡ (own_of self.now).loops channel }
    {
        self.loops.get(channel).copied().unwrap_or_else(Loop::off)
    }

    // A fan that is not there has no reading to change. The library's contract of `get_mut` says of no element what is left there, so an
    // index is compared here.
    pub fn set_tach(&mut self, fan: usize, tach: u8)
        ensures { own_of self.new ≡ if_there fan FANS (with_tach (own_of self.old) fan tach) (own_of self.old) }
    {
        if fan < FANS {
            self.tachs[fan] = tach;
        }
    }

    // Nor has a channel that is not there a loop to change.
    pub fn set_loop(&mut self, channel: usize, state: Loop)
        ensures { own_of self.new ≡ if_there channel CHANNELS (with_loop (own_of self.old) channel state) (own_of self.old) }
    {
        if channel < CHANNELS {
            self.loops[channel] = state;
        }
    }

    // A report of a temperature goes to the loop of its channel.
    pub fn hear(&mut self, channel: usize, reading: i8, thermostat: Thermostat)
        ensures { own_of self.new ≡ if_there channel CHANNELS (with_loop (own_of self.old) channel (heard ((own_of self.old).loops channel) reading thermostat.start thermostat.hysteresis)) (own_of self.old) }
    {
        let state = self.loop_of(channel).reported(reading, thermostat);
        self.set_loop(channel, state);
    }
}
