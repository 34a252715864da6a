// What a unit means, whatever its kind, and what is the same for every kind.
#![tactic(auto)]

ghost use Rattle.std.specs.Prelude.{◌≡◌, ℕ};
ghost use Rattle.unit.specs.Answers.{write_answer, read_answer, report_answer};
ghost use Rattle.unit.specs.Kind.{Kind, State};
ghost use Rattle.unit.specs.Levels.{stands_in, base_of};
ghost use Rattle.unit.specs.Order.{Order, Faithful};
ghost use Rattle.unit.specs.Steps.{report_in, write_in, reset_in, after};

use fault::Fault;

pub mod level;
pub mod mark;
pub mod marks;
pub mod page;

// A unit of some kind. Fans and sources are counted from 0. A question about a source or a fan that is not there has an answer too, which
// its kind defines; a rack asks only about those that are. They are numbers, since a rack asks any kind alike and a bad number is refused;
// a call has its arguments apart, as they come over the bus.
pub trait Unit {
    // How many there are. Each constant is a ghost number too, for the laws to cite.
    const FANS: usize;

    const SOURCES: usize;

    ghost FANS: { ℕ };

    ghost SOURCES: { ℕ };

    ghost kind: { Kind };

    ghost state: { Self → State kind };

    fn reset(&mut self)
        ensures { state self.new ≡ reset_in kind (state self.old) };

    fn write(&mut self, register: u8, byte: u8) -> Result<(), Fault>
        ensures answer { result ≡ write_answer kind register byte }
        ensures after { state self.new ≡ after result (write_in kind (state self.old) register byte) (state self.old) };

    fn read(&self, register: u8) -> Result<u8, Fault>
        ensures { result ≡ read_answer kind (state self.now) register };

    fn report(&mut self, source: usize, value: i32) -> Result<(), Fault>
        ensures answer { result ≡ report_answer kind source value }
        ensures after { state self.new ≡ after result (report_in kind (state self.old) source value) (state self.old) };

    // Whether the cause of the source stands.
    fn stands(&self, source: usize) -> bool
        ensures { result ≡ stands_in kind (state self.now) source };

    fn pulls(&self, source: usize) -> bool
        ensures { result ≡ kind.pulls (state self.now).page source };

    fn asserts(&self, source: usize) -> bool
        ensures { result ≡ kind.asserts (state self.now).page source };

    fn demand(&self, source: usize, fan: usize) -> u8
        ensures { result ≡ kind.demand (state self.now).page source fan };

    fn forced(&self) -> bool
        ensures { result ≡ kind.forced (state self.now).page };

    fn answer(&self, fan: usize) -> u8
        ensures { result ≡ kind.answer (state self.now).page fan };

    fn base(&self, fan: usize) -> u8
        ensures { result ≡ base_of kind (state self.now) fan };

    // Whether INT is asserted, with or without a standing cause that asserts it.
    fn interrupt(&self, cause: bool) -> bool
        ensures { result ≡ kind.interrupt (state self.now).page cause };

    // The level of the INT pin, likewise.
    fn pin(&self, cause: bool) -> bool
        ensures { result ≡ kind.pin (state self.now).page cause };

    // What a write would answer: it depends on the kind alone.
    fn check_write(register: u8, byte: u8) -> Result<(), Fault>
        ensures { result ≡ write_answer kind register byte };

    fn is_setting(register: u8) -> bool
        ensures { result ≡ kind.setting register };

    fn setting(&self, register: u8) -> u8
        ensures { result ≡ kind.byte (state self.now).page register };

    ghost fans_are: { FANS ≡ kind.fans };

    ghost sources_are: { SOURCES ≡ kind.sources };

    ghost ordered: { Order kind };

    ghost faithful: { Faithful kind };
}
