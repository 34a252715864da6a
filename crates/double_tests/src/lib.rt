// Calls of a double unit, with the exact answer to each.
#![tactic(auto)]

#[cfg(test)]
mod tests {
    use double::Double;
    use fault::{Cause, Fault};
    use std::process::Abort;
    use std::test::Fail;
    use unit::Unit;
    use unit::level::{int_pin, level, pulls_line};

    // Registers from the first to the last, their byte at power-on with strap 4, and the mask of their named bits.
    const SETTINGS: [(u8, u8, u8, u8); 13] = [
        (0x01, 0x01, 0x10, 0xf2),
        (0x18, 0x19, 0x00, 0xff),
        (0x20, 0x21, 0x00, 0x0f),
        (0x40, 0x42, 0x00, 0x07),
        (0x48, 0x4a, 0x03, 0x03),
        (0x60, 0x61, 0xff, 0xff),
        (0x68, 0x69, 0x2f, 0xff),
        (0x78, 0x79, 0xff, 0xff),
        (0x80, 0x82, 0x20, 0xff),
        (0x88, 0x8a, 0x51, 0xff),
        (0x90, 0x90, 0x50, 0xff),
        (0x91, 0x92, 0x64, 0xff),
        (0xf0, 0xf0, 0x00, 0x03),
    ];

    const READ_ONLY: [u8; 5] = [0x70, 0x71, 0xa0, 0xa1, 0xa2];

    // A strap, its bytes at 01h and at 48h to 4Ah, and the start of its loops.
    const STRAPS: [(u8, u8, u8, u8); 9] = [
        (0, 0x00, 0x00, 32),
        (1, 0x10, 0x03, 48),
        (2, 0x10, 0x03, 40),
        (3, 0x10, 0x03, 32),
        (4, 0x10, 0x03, 32),
        (5, 0x10, 0x03, 40),
        (6, 0x10, 0x03, 48),
        (7, 0x00, 0x00, 32),
        (8, 0x00, 0x00, 32),
    ];

    // The sources of fan 1: a value that is well, one that fails, and the failing and the held bit of 10h. Those of fan 2 are four on.
    const FAN_SOURCES: [(usize, i32, i32, u8, u8); 4] = [
        (0, 0, 1, 0x01, 0x02),
        (1, 0, 1, 0x08, 0x04),
        (2, 0x99, 0x9a, 0x10, 0x40),
        (3, 0, 1, 0x20, 0x80),
    ];

    fn refused<T>(cause: Cause) -> Result<T, Fault> {
        Err(cause.unplaced())
    }

    // A call that must be served, or a question with its answer. They are data, since a closure in each row would say no more.
    #[derive(Clone, Copy)]
    enum Step {
        Write(u8, u8),
        Report(usize, i32),
        Reads(u8, u8),
        Stands(usize, bool),
        // a fan's level while the line is high, and while it is low
        Levels(usize, u8, u8),
        Pulls(bool),
        Pin(bool),
    }

    fn play_step(rt: &impl Abort, unit: &mut Double, step: Step) -> Result<(), Fail> {
        match step {
            Step::Write(register, byte) => {
                assert_eq!(rt; unit.write(register, byte), Ok(()));
                Ok(())
            },
            Step::Report(source, value) => {
                assert_eq!(rt; unit.report(source, value), Ok(()));
                Ok(())
            },
            Step::Reads(register, byte) => {
                assert_eq!(rt; unit.read(register), Ok(byte));
                Ok(())
            },
            Step::Stands(source, stands) => {
                assert_eq!(rt; unit.stands(source), stands);
                Ok(())
            },
            Step::Levels(fan, high, low) => {
                assert_eq!(rt; level(unit, false, fan), Ok(high));
                assert_eq!(rt; level(unit, true, fan), Ok(low));
                Ok(())
            }
            Step::Pulls(pulls) => {
                assert_eq!(rt; pulls_line(unit), pulls);
                Ok(())
            },
            Step::Pin(pin) => {
                assert_eq!(rt; int_pin(unit), pin);
                Ok(())
            },
        }
    }

    fn play(rt: &impl Abort, unit: &mut Double, steps: &[Step]) -> Result<(), Fail> {
        for &step in steps {
            play_step(rt, unit, step)?;
        }
        Ok(())
    }

    #[test]
    fn settings_take_their_named_bits(rt: HostRuntime) {
        let mut unit = Double::new(4);
        for (first, last, start, mask) in SETTINGS {
            for register in first..=last {
                assert_eq!(rt; unit.read(register), Ok(start));
                for byte in [0xf4, 0x00, 0x52, 0xa3] {
                    assert_eq!(rt; unit.write(register, byte), Ok(()));
                    assert_eq!(rt; unit.read(register), Ok(byte & mask));
                    assert_eq!(rt; unit.setting(register), byte & mask);
                }
                assert!(rt; Double::is_setting(register));
            }
        }
        unit.reset();
        for (first, _, start, _) in SETTINGS {
            assert_eq!(rt; unit.read(first), Ok(start));
        }
    }

    fn is_there(register: u8) -> bool {
        let is_setting = SETTINGS.iter().any(|(first, last, _, _)| *first <= register
            && register <= *last);
        is_setting || matches!(register, 0x10..=0x11 | 0x70..=0x71 | 0xa0..=0xa2)
    }

    #[test]
    fn other_registers_refuse(rt: HostRuntime) {
        let mut unit = Double::new(4);
        for register in READ_ONLY {
            assert_eq!(rt; unit.read(register), Ok(0));
            assert_eq!(rt; unit.write(register, 1), refused(Cause::ReadOnly));
            assert!(rt; !Double::is_setting(register));
        }
        for register in 0..=255u8 {
            if !is_there(register) {
                assert_eq!(rt; unit.read(register), refused(Cause::NoRegister));
                assert_eq!(rt; unit.write(register, 0xff), refused(Cause::NoRegister));
            }
        }
        for register in 0x88..=0x8au8 {
            assert_eq!(rt; unit.write(register, 0x54), Ok(()));
            assert_eq!(rt; unit.write(register, 0x55), refused(Cause::RangeCode));
            assert_eq!(rt; unit.write(register, 0xff), refused(Cause::RangeCode));
            assert_eq!(rt; unit.read(register), Ok(0x54));
        }
        for register in 0x10..=0x11u8 {
            assert!(rt; !Double::is_setting(register));
            assert_eq!(rt; unit.write(register, 0xff), Ok(()));
            assert_eq!(rt; unit.read(register), Ok(0));
        }
    }

    #[test]
    fn straps_decide_power_on(rt: HostRuntime) {
        for (strap, control, driven, start) in STRAPS {
            let unit = Double::new(strap);
            assert_eq!(rt; unit.read(0x01), Ok(control));
            for channel in 0..3u8 {
                assert_eq!(rt; unit.read(0x48 + channel), Ok(driven));
                assert_eq!(rt; unit.read(0x80 + channel), Ok(start));
            }
        }
    }

    #[test]
    fn values_have_their_ranges(rt: HostRuntime) {
        let mut unit = Double::new(4);
        for source in 0..8usize {
            let highest = if source % 4 == 2 { 255 } else { 1 };
            assert_eq!(rt; unit.report(source, 0), Ok(()));
            assert_eq!(rt; unit.report(source, highest), Ok(()));
            assert_eq!(rt;
                unit.report(source, highest + 1),
                refused(Cause::ValueOutOfRange)
            );
            assert_eq!(rt; unit.report(source, -1), refused(Cause::ValueOutOfRange));
        }
        assert_eq!(rt; unit.read(0x70), Ok(255));
        for (source, register) in [(8, 0xa0), (9, 0xa1), (10, 0xa2)] {
            assert_eq!(rt; unit.report(source, 127), Ok(()));
            assert_eq!(rt; unit.read(register), Ok(0x7f));
            assert_eq!(rt; unit.report(source, -128), Ok(()));
            assert_eq!(rt; unit.report(source, 128), refused(Cause::ValueOutOfRange));
            assert_eq!(rt; unit.report(source, -129), refused(Cause::ValueOutOfRange));
            assert_eq!(rt; unit.read(register), Ok(0x80));
        }
        assert_eq!(rt; unit.report(11, 0), refused(Cause::NoSourceOrFan));
        assert_eq!(rt; unit.report(11, 1000), refused(Cause::NoSourceOrFan));
        assert_eq!(rt; level(&unit, false, 2), refused(Cause::NoSourceOrFan));
    }

    // Fails, recovers and stays held; a 1 leaves the hold and a 0 ends it; ended while failing it is not held, and still failing.
    fn check_hold(
        rt: &impl Abort,
        unit: &mut Double,
        source: usize,
        register: u8,
        case: (i32, i32, u8, u8),
    ) -> Result<(), Fail> {
        let (well, bad, failing, held) = case;
        let steps = [
            Step::Report(source, well),
            Step::Reads(register, 0),
            Step::Report(source, bad),
            Step::Reads(register, failing | held),
            Step::Report(source, well),
            Step::Reads(register, held),
            Step::Write(register, held),
            Step::Stands(source, true),
            Step::Write(register, !held),
            Step::Stands(source, false),
            Step::Report(source, bad),
            Step::Write(register, 0),
            Step::Reads(register, failing),
            Step::Report(source, well),
            Step::Stands(source, false),
        ];
        play(rt, unit, &steps)
    }

    #[test]
    fn fan_sources_are_held(rt: HostRuntime) -> Result<(), Fail> {
        let mut unit = Double::new(4);
        play(
            &rt,
            &mut unit,
            &[Step::Write(0x78, 0x99), Step::Write(0x79, 0x99)],
        )?;
        for (source, well, bad, failing, held) in FAN_SOURCES {
            check_hold(&rt, &mut unit, source, 0x10, (well, bad, failing, held))?;
            check_hold(&rt, &mut unit, source + 4, 0x11, (well, bad, failing, held))?;
        }
        // One source's hold ends, and the others stay.
        let others = [
            Step::Report(0, 1),
            Step::Report(1, 1),
            Step::Report(4, 1),
            Step::Reads(0x10, 0x0f),
            Step::Write(0x10, 0xfd),
            Step::Reads(0x10, 0x0d),
            Step::Reads(0x11, 0x03),
        ];
        play(&rt, &mut unit, &others)
    }

    // A temperature by its source, its alarm bits and its limit, and a limit with a value that is well and one that fails. Without the alarm
    // bit nothing is held.
    fn check_temperature(
        rt: &impl Abort,
        unit: &mut Double,
        which: (usize, u8, u8),
        case: (u8, i32, i32),
    ) -> Result<(), Fail> {
        let (source, register, limit_at) = which;
        let (limit, well, bad) = case;
        let steps = [
            Step::Write(limit_at, limit),
            Step::Write(register, 0x05),
            Step::Report(source, bad),
            Step::Stands(source, true),
            Step::Reads(register, 0x05),
            Step::Report(source, well),
            Step::Stands(source, false),
            Step::Write(register, 0x02),
            Step::Report(source, bad),
            Step::Report(source, well),
            Step::Reads(register, 0x82),
            Step::Write(register, 0x82),
            Step::Stands(source, true),
            Step::Write(register, 0x02),
            Step::Stands(source, false),
        ];
        play(rt, unit, &steps)
    }

    #[test]
    fn temperatures_are_held_by_their_alarm_bit(rt: HostRuntime) -> Result<(), Fail> {
        let mut unit = Double::new(4);
        for which in [(8, 0x40, 0x90), (9, 0x41, 0x91), (10, 0x42, 0x92)] {
            check_temperature(&rt, &mut unit, which, (0x46, 70, 71))?;
            check_temperature(&rt, &mut unit, which, (0xba, -70, -69))?;
        }
        Ok(())
    }

    // The worked example: a unit of strap 7, fan 1 at its minimum of 85 and with alarm level 255.
    #[test]
    fn a_latch_holds_until_cleared(rt: HostRuntime) -> Result<(), Fail> {
        let steps = [
            Step::Write(0x60, 0xf5),
            Step::Write(0x92, 0x46),
            Step::Write(0x42, 0x02),
            Step::Write(0x4a, 0x01),
            Step::Write(0x01, 0x10),
            Step::Report(10, 70),
            Step::Levels(0, 85, 85),
            Step::Report(10, 71),
            Step::Levels(0, 255, 255),
            Step::Report(10, 70),
            Step::Levels(0, 255, 255),
            Step::Write(0x42, 0x02),
            Step::Levels(0, 85, 85),
        ];
        play(&rt, &mut Double::new(7), &steps)
    }

    // Fan 1 has alarm level 170, minimum 34 and hot-plug level 51; fan 2 187, 17 and 204. No loop drives them.
    #[test]
    fn causes_demand_levels(rt: HostRuntime) -> Result<(), Fail> {
        let mut unit = Double::new(4);
        let settings = [
            Step::Write(0x60, 0xa2),
            Step::Write(0x61, 0xb1),
            Step::Write(0x68, 0x23),
            Step::Write(0x69, 0x2c),
            Step::Write(0x48, 0),
            Step::Write(0x49, 0),
            Step::Write(0x4a, 0),
            Step::Report(3, 1),
        ];
        play(&rt, &mut unit, &settings)?;
        for (bits, first, second) in [
            (0x00, 34, 17),
            (0x01, 170, 17),
            (0x02, 34, 187),
            (0x04, 51, 17),
            (0x0c, 51, 204),
            (0x0f, 170, 204),
        ] {
            let steps = [
                Step::Write(0x20, bits),
                Step::Levels(0, first, first),
                Step::Levels(1, second, second),
            ];
            play(&rt, &mut unit, &steps)?;
        }
        Ok(())
    }

    #[test]
    fn causes_pull_and_assert(rt: HostRuntime) -> Result<(), Fail> {
        let mut unit = Double::new(4);
        let pulling = [
            Step::Report(3, 1),
            Step::Pulls(false),
            Step::Write(0x18, 0x7f),
            Step::Write(0x19, 0xff),
            Step::Pulls(false),
            Step::Write(0x18, 0x80),
            Step::Pulls(true),
            Step::Pin(true),
            Step::Write(0x18, 0x88),
        ];
        play(&rt, &mut unit, &pulling)?;
        // The pin shows the polarity while INT is asserted; 01h bit 1 masks it, and bit 6 forces it.
        for (control, pin) in [
            (0x10, false),
            (0x90, true),
            (0x12, true),
            (0x92, false),
            (0x52, false),
            (0xd2, true),
        ] {
            play(
                &rt,
                &mut unit,
                &[Step::Write(0x01, control), Step::Pin(pin)],
            )?;
        }
        unit.reset();
        play(
            &rt,
            &mut unit,
            &[
                Step::Pulls(false),
                Step::Write(0x01, 0x30),
                Step::Pulls(true),
            ],
        )
    }

    // Fan 1 follows the local loop, halfway through its range, fan 2 the local and the second remote one; then only fan 1 is driven.
    #[test]
    fn bases_and_answers(rt: HostRuntime) -> Result<(), Fail> {
        let driven = [
            Step::Write(0x60, 0xa5),
            Step::Write(0x61, 0xb1),
            Step::Write(0x49, 0x00),
            Step::Write(0x4a, 0x02),
            Step::Write(0x88, 0x53),
            Step::Write(0x8a, 0x53),
            Step::Report(8, 52),
            Step::Report(10, 72),
            Step::Levels(0, 170, 170),
            Step::Levels(1, 255, 255),
            Step::Write(0x4a, 0x00),
            Step::Write(0x48, 0x01),
            Step::Levels(1, 17, 17),
            Step::Write(0xf0, 0x02),
            Step::Levels(1, 17, 187),
            Step::Pulls(false),
            Step::Write(0x01, 0x00),
            Step::Levels(0, 170, 170),
            Step::Levels(1, 187, 187),
        ];
        play(&rt, &mut Double::new(4), &driven)?;
        // With automatic control off the base is the minimum, whatever drives the fan.
        let manual = [
            Step::Write(0x01, 0x10),
            Step::Write(0x48, 0x03),
            Step::Write(0x60, 0xf5),
            Step::Report(8, 127),
            Step::Levels(0, 85, 85),
        ];
        play(&rt, &mut Double::new(0), &manual)
    }
}
