// What a write does to the marks of a double unit's sources.
ghost use Rattle.std.specs.Prelude.{◌≡◌, false};
ghost use Rattle.double.specs.Sources.{ends_hold, of_source};
ghost use Rattle.unit.specs.Parts.{marks_of};
ghost use Rattle.unit.specs.Steps.{ended};

use double_settings::parts::{FanSource, Source};
use quantity::is_bit;
use unit::marks::Marks;

// Whether a write of the byte ends the hold of the source: it does with a 0 at the source's held bit.
fn ends_hold(register: u8, byte: u8, source: Source) -> bool
    ensures { result ≡ ends_hold register byte source }
{
    match source {
        Source::OfFan(fan, kind) => {
            let bit = match kind {
                FanSource::Missing => 1,
                FanSource::Fault => 2,
                FanSource::Tach => 6,
                FanSource::HotPlug => 7,
            };
            register == 0x10 + fan.index() && !is_bit(byte, bit)
        }
        Source::Temperature(channel) => register == 0x40 + channel.index() && !is_bit(byte, 7),
    }
}

// Ends the holds that a write ends.
pub fn end_holds(marks: &mut Marks<11>, register: u8, byte: u8)
    ensures { marks_of marks.new ≡ (λ n. ended (of_source false (ends_hold register byte) n) (marks_of marks.old n)) }
{
    for source in Source::ALL {
        marks.end(source.number(), ends_hold(register, byte, source));
    }
}
