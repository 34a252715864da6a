// The own state of a unit, whatever its kind: the last tachometer reading of each fan, and the control loop of each channel.
#![tactic(auto)]

ghost use Rattle.std.specs.Prelude.{◌≡◌, length};

use control::Loop;

mod parts;

// Fans and channels are counted from 0. They are numbers here, since each kind has its own enum of them. There is no model,
// since what an own state means is two functions.
#[derive(Clone, Copy, PartialEq, Eq, Debug)]
pub struct Own<const FANS: usize, const CHANNELS: usize> {
    tachs: [u8; FANS],
    loops: [Loop; CHANNELS],
    ghost fans: { length tachs ≡ FANS },
    ghost channels: { length loops ≡ CHANNELS },
}
