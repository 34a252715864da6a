// The library's check of a set-up list and its level of a control loop, as functions for C.
// include/fanrack.h declares them. A C caller is held to no `requires`, so they have none.
#![tactic(auto)]

ghost use Rattle.std.specs.Prelude.{◌≡◌, pos};
ghost use Rattle.capi.specs.Answers.{list_answer, is_on, level_answer};

use control::{Loop, Ramp, Range};
use setup::check_list;

// What `fanrack_loop_level` answers for a code that no range has: a number, since C is handed no other refusal.
const NO_RANGE: i32 = -4;

// 0 for a good set-up list, else the number of its first fault, since C takes no `Result`.
#[unsafe(no_mangle)]
pub extern "C" fn fanrack_check_list(list: &[u8]) -> i32
    ensures { result ≡ pos (list_answer list.now) }
{
    match check_list(list) {
        Ok(()) => 0,
        Err(fault) => i32::from(fault.cause.number()),
    }
}

// A number, since C hands over an `int32_t`: any but 0 is on.
fn is_on(on: i32) -> bool
    ensures { result ≡ is_on on }
{
    on != 0
}

// The level of a control loop, from 0 to 255; `on` is 0 while the loop is off.
#[unsafe(no_mangle)]
pub extern "C" fn fanrack_loop_level(on: i32, t: i8, t_min: i8, code: u8, m: u8) -> i32
    ensures { result ≡ level_answer on t t_min code m }
{
    let Ok(range) = Range::try_from(code) else {
        return NO_RANGE;
    };
    let state = Loop {
        on: is_on(on),
        reading: t,
    };
    let ramp = Ramp {
        start: t_min,
        range,
        minimum: m,
    };
    i32::from(state.level(ramp))
}
