// The range of a control loop: how many degrees above its start the fan is at full duty.
ghost use Rattle.std.specs.Prelude.{◌≡◌, ◌<◌, ◌≤◌, Ok, Err, if◌then◌else◌};
ghost use Rattle.std.specs.Result.{result_map_both};
ghost use Rattle.control.specs.Range.{degrees, is_code};
ghost use Rattle.fault.specs.Faults.{unplaced};
ghost use Rattle.fault.specs.declared.Cause.TheVariants.{RangeCode};

use fault::{Cause, Fault};

// A range with one of the five codes, so that it always has a width, and never 0. The code itself is kept, under an invariant, since registers
// hold it and no unit may ever hold another.
#[derive(Clone, Copy, PartialEq, Eq, Debug)]
pub struct Range {
    code: u8,
    ghost known: { code ≤ 4 },
}

// In degrees, by code.
const WIDTHS: [u8; 5] = [5, 10, 20, 40, 80];

impl TryFrom<u8> for Range {
    type Error = Fault;

    ghost try_from_gives = { λ code r. result_map_both (λ range. range.code) (λ fault. fault) r ≡ (if is_code code then Ok code else Err (unplaced RangeCode)) };

    fn try_from(code: u8) -> Result<Range, Fault> {
        if code <= 4 {
            Ok(Range { code })
        } else {
            Err(Cause::RangeCode.unplaced())
        }
    }
}

impl From<Range> for u8 {
    ghost from_gives = { λ range code. code ≡ range.code };

    fn from(range: Range) -> u8 {
        range.code
    }
}

impl Range {
    // Of code 0.
    pub fn narrowest() -> Range
        ensures { result.code ≡ 0 }
    {
        Range { code: 0 }
    }

    // By index, which the invariant keeps in range.
    pub fn width(self) -> u8
        ensures is { result ≡ degrees self.code }
        ensures positive { 0 < result }
    {
        WIDTHS[usize::from(self.code)]
    }
}
