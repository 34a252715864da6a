// The byte of 10h and 11h: the marks of a fan's four sources.
ghost use Rattle.std.specs.Prelude.{◌≡◌};
ghost use Rattle.double.specs.Status.{AllShown, status_byte};

use quantity::byte_if;
use unit::mark::Mark;

pub fn status_byte(missing: Mark, fault: Mark, tach: Mark, hot_plug: Mark) -> u8
    ensures value { result ≡ status_byte missing fault tach hot_plug }
    ensures shows { AllShown result missing fault tach hot_plug }
{
    let low = byte_if(missing.failing, 0x01)
        + byte_if(missing.held, 0x02)
        + byte_if(fault.held, 0x04)
        + byte_if(fault.failing, 0x08);
    low + byte_if(tach.failing, 0x10)
        + byte_if(hot_plug.failing, 0x20)
        + byte_if(tach.held, 0x40)
        + byte_if(hot_plug.held, 0x80)
}
