// Calls of a single unit, with the exact answer to each.
#![tactic(auto)]

#[cfg(test)]
mod tests {
    use fault::{Cause, Fault};
    use single::Single;
    use unit::Unit;
    use unit::level::{asserts_int, int_pin, level, pulls_line};

    // A register, its byte at power-on, and what a read gives after FFh and then 5Ah were written.
    const SETTINGS: [(u8, u8, u8, u8); 7] = [
        (0x00, 0x10, 0x10, 0x10),
        (0x10, 0x05, 0x0f, 0x0a),
        (0x18, 0x20, 0xff, 0x5a),
        (0x19, 0x20, 0xff, 0x5a),
        (0x1c, 0x50, 0xff, 0x5a),
        (0x1d, 0x64, 0xff, 0x5a),
        (0x1e, 0xff, 0xff, 0x5a),
    ];

    const CODES: [u8; 2] = [0x1a, 0x1b];

    const READ_ONLY: [u8; 3] = [0x20, 0x21, 0x22];

    // `refused` and `is_there` are as in the tests of the double unit: a crate to share a line or two, over other registers, would be more.
    fn refused<T>(cause: Cause) -> Result<T, Fault> {
        Err(cause.unplaced())
    }

    fn is_there(register: u8) -> bool {
        matches!(register, 0x00 | 0x10 | 0x18..=0x1e | 0x20..=0x22)
    }

    #[test]
    fn settings_take_their_named_bits(rt: HostRuntime) {
        let mut unit = Single::new();
        for (register, first, ones, mixed) in SETTINGS {
            assert_eq!(rt; unit.read(register), Ok(first));
            assert_eq!(rt; unit.write(register, 0xff), Ok(()));
            assert_eq!(rt; unit.read(register), Ok(ones));
            assert_eq!(rt; unit.write(register, 0x5a), Ok(()));
            assert_eq!(rt; unit.read(register), Ok(mixed));
            assert!(rt; Single::is_setting(register));
            assert_eq!(rt; unit.setting(register), mixed);
        }
        unit.reset();
        for (register, first, _, _) in SETTINGS {
            assert_eq!(rt; unit.read(register), Ok(first));
        }
    }

    #[test]
    fn range_codes_go_up_to_four(rt: HostRuntime) {
        let mut unit = Single::new();
        for register in CODES {
            assert_eq!(rt; unit.read(register), Ok(3));
            for code in 0..16u8 {
                let served = unit.write(register, code | 0xf0);
                if code <= 4 {
                    assert_eq!(rt; served, Ok(()));
                    assert_eq!(rt; unit.read(register), Ok(code));
                } else {
                    assert_eq!(rt; served, refused(Cause::RangeCode));
                    assert_eq!(rt; unit.read(register), Ok(4));
                }
                assert_eq!(rt;
                    Single::check_write(register, code),
                    unit.write(register, code)
                );
            }
        }
    }

    #[test]
    fn absent_and_read_only_registers_refuse(rt: HostRuntime) {
        let mut unit = Single::new();
        for register in READ_ONLY {
            assert_eq!(rt; unit.read(register), Ok(0));
            assert_eq!(rt; unit.write(register, 1), refused(Cause::ReadOnly));
            assert_eq!(rt; unit.read(register), Ok(0));
            assert!(rt; !Single::is_setting(register));
        }
        for register in 0..=255u8 {
            if !is_there(register) {
                assert_eq!(rt; unit.read(register), refused(Cause::NoRegister));
                assert_eq!(rt; unit.write(register, 0xff), refused(Cause::NoRegister));
            }
        }
    }

    #[test]
    fn values_have_their_ranges(rt: HostRuntime) {
        let mut unit = Single::new();
        assert_eq!(rt; unit.report(0, 255), Ok(()));
        assert_eq!(rt; unit.report(0, 256), refused(Cause::ValueOutOfRange));
        assert_eq!(rt; unit.report(0, -1), refused(Cause::ValueOutOfRange));
        assert_eq!(rt; unit.read(0x20), Ok(255));
        for (source, register) in [(1, 0x21), (2, 0x22)] {
            assert_eq!(rt; unit.report(source, 127), Ok(()));
            assert_eq!(rt; unit.read(register), Ok(0x7f));
            assert_eq!(rt; unit.report(source, -128), Ok(()));
            assert_eq!(rt; unit.report(source, 128), refused(Cause::ValueOutOfRange));
            assert_eq!(rt; unit.report(source, -129), refused(Cause::ValueOutOfRange));
            assert_eq!(rt;
                unit.report(source, i32::MIN),
                refused(Cause::ValueOutOfRange)
            );
            assert_eq!(rt; unit.read(register), Ok(0x80));
        }
        assert_eq!(rt; unit.report(3, 0), refused(Cause::NoSourceOrFan));
        assert_eq!(rt; unit.report(3, 1000), refused(Cause::NoSourceOrFan));
        assert_eq!(rt; level(&unit, false, 1), refused(Cause::NoSourceOrFan));
    }

    #[test]
    fn causes_stand_above_their_limits(rt: HostRuntime) {
        let mut unit = Single::new();
        assert_eq!(rt; unit.write(0x1e, 0x99), Ok(()));
        assert_eq!(rt; unit.write(0x1c, 0xff), Ok(()));
        for (source, well, fails) in [(0, 153, 154), (1, -1, 0), (2, 100, 101)] {
            assert_eq!(rt; unit.report(source, well), Ok(()));
            assert!(rt;
                !unit.stands(source) && !pulls_line(&unit) && !asserts_int(&unit) && int_pin(&unit)
            );
            assert_eq!(rt; unit.report(source, fails), Ok(()));
            assert!(rt;
                unit.stands(source) && pulls_line(&unit) && asserts_int(&unit) && !int_pin(&unit)
            );
            assert_eq!(rt; level(&unit, false, 0), Ok(255));
            assert_eq!(rt; unit.report(source, well), Ok(()));
            assert!(rt; !unit.stands(source));
        }
    }

    #[test]
    fn loops_turn_on_and_off(rt: HostRuntime) {
        let mut unit = Single::new();
        assert_eq!(rt; level(&unit, false, 0), Ok(0));
        assert_eq!(rt; level(&unit, true, 0), Ok(255));
        for source in [1, 2] {
            assert_eq!(rt; unit.report(source, 32), Ok(()));
            assert_eq!(rt; level(&unit, false, 0), Ok(0));
            assert_eq!(rt; unit.report(source, 33), Ok(()));
            assert_eq!(rt; level(&unit, false, 0), Ok(89));
            assert_eq!(rt; unit.report(source, 27), Ok(()));
            assert_eq!(rt; level(&unit, false, 0), Ok(85));
            assert_eq!(rt; unit.report(source, 26), Ok(()));
            assert_eq!(rt; level(&unit, false, 0), Ok(0));
        }
        assert_eq!(rt; unit.report(1, 52), Ok(()));
        assert_eq!(rt; unit.report(2, 33), Ok(()));
        assert_eq!(rt; level(&unit, false, 0), Ok(170));
        assert_eq!(rt; unit.write(0x00, 0x00), Ok(()));
        assert_eq!(rt; level(&unit, false, 0), Ok(255));
    }
}
