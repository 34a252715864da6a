// A control loop at its boundaries: every range code, both sides of the hysteresis, the extreme readings and minimums.
use crate::{Loop, Ramp, Range, Thermostat};

fn width_of(code: u8) -> Option<u8> {
    match Range::try_from(code) {
        Ok(range) if u8::from(range) == code => Some(range.width()),
        _ => None,
    }
}

fn turns(on: bool, reading: i8, start: i8, hysteresis: u8) -> bool {
    Thermostat { start, hysteresis }.turned(on, reading)
}

// The level of a loop that is on, with the range of this code.
fn level_at(reading: i8, start: i8, code: u8, minimum: u8) -> Option<u8> {
    let range = Range::try_from(code).ok()?;
    let ramp = Ramp {
        start,
        range,
        minimum,
    };
    Some(Loop { on: true, reading }.level(ramp))
}

#[test]
fn range_codes(rt: HostRuntime) {
    assert_eq!(rt; width_of(0), Some(5));
    assert_eq!(rt; width_of(1), Some(10));
    assert_eq!(rt; width_of(2), Some(20));
    assert_eq!(rt; width_of(3), Some(40));
    assert_eq!(rt; width_of(4), Some(80));
    for code in 5..16 {
        assert_eq!(rt; width_of(code), None);
    }
}

#[test]
fn full_at_the_end_of_each_range(rt: HostRuntime) {
    for code in 0..5 {
        assert_eq!(rt; level_at(-40, -40, code, 0), Some(0));
        assert_eq!(rt; level_at(40, -40, code, 0), Some(255));
    }
    assert_eq!(rt; level_at(4, 0, 0, 0), Some(204));
    assert_eq!(rt; level_at(9, 0, 1, 0), Some(229));
    assert_eq!(rt; level_at(19, 0, 2, 0), Some(242));
    assert_eq!(rt; level_at(39, 0, 3, 0), Some(248));
    assert_eq!(rt; level_at(79, 0, 4, 0), Some(251));
}

#[test]
fn hysteresis(rt: HostRuntime) {
    assert!(rt; turns(false, 21, 20, 5));
    assert!(rt; turns(true, 20, 20, 5));
    assert!(rt; turns(true, 15, 20, 5));
    assert!(rt; !turns(true, 14, 20, 5));
    assert!(rt; !turns(false, 15, 20, 5));
    assert!(rt; !turns(false, 20, 20, 5));
    assert!(rt; turns(true, 20, 20, 0));
    assert!(rt; !turns(true, 19, 20, 0));
}

#[test]
fn extreme_readings(rt: HostRuntime) {
    assert!(rt; turns(false, 127, -128, 15));
    assert!(rt; turns(true, -128, -128, 15));
    assert!(rt; turns(true, -128, -128, 0));
    assert!(rt; !turns(true, -128, 127, 15));
    assert!(rt; turns(true, 112, 127, 15));
    assert!(rt; !turns(true, 111, 127, 15));
    assert_eq!(rt; level_at(127, -128, 4, 0), Some(255));
    assert_eq!(rt; level_at(-128, 127, 4, 7), Some(7));
    assert_eq!(rt; level_at(127, 120, 1, 0), Some(178));
}

#[test]
fn extreme_minimums(rt: HostRuntime) {
    assert_eq!(rt; level_at(0, 0, 2, 0), Some(0));
    assert_eq!(rt; level_at(1, 0, 2, 0), Some(12));
    assert_eq!(rt; level_at(0, 0, 2, 255), Some(255));
    assert_eq!(rt; level_at(1, 0, 2, 255), Some(255));
    assert_eq!(rt; level_at(20, 0, 2, 255), Some(255));
}
