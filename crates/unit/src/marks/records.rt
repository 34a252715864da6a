// One record is changed at a time, and the others stay as they were.
ghost use Rattle.std.specs.Prelude.{◌≡◌};
ghost use Rattle.unit.specs.Calls.{Computes};
ghost use Rattle.unit.specs.Kind.{clear};
ghost use Rattle.unit.specs.Parts.{marks_of};
ghost use Rattle.unit.specs.Steps.{put_below, marked, ended};

use super::Marks;
use crate::mark::Mark;

impl<const N: usize> Marks<N> {
    pub fn clear() -> Marks<N>
        ensures { marks_of result ≡ (λ _. clear) }
    {
        Marks {
            records: [Mark::clear(); N],
        }
    }

    pub fn get(&self, source: usize) -> Mark
        ensures { result ≡ marks_of self.now source }
    {
        // A match, since a chain of `copied` and `unwrap_or_else` costs more in a loop over the sources.
        match self.records.get(source) {
            Some(mark) => *mark,
            None => Mark::clear(),
        }
    }

    // A step of one mark, if that is there.
    fn change<F: FnOnce(Mark) -> Mark>(&mut self, source: usize, step: F)
        requires { F.IsAlwaysCallable step }
        ensures { (does : Mark → Mark) → Computes (F.post step) does → marks_of self.new ≡ put_below N (marks_of self.old) source (does (marks_of self.old source)) }
    {
        // By index, since the contract of `get_mut` says of no element what is left there.
        if source < N {
            self.records[source] = step(self.records[source]);
        }
    }

    // A report changes the mark of its source, if that is there.
    pub fn report(&mut self, source: usize, fails: bool, latches: bool)
        ensures { marks_of self.new ≡ put_below N (marks_of self.old) source (marked fails latches (marks_of self.old source)) }
    {
        self.change(source, |mark| mark.reported(fails, latches));
    }

    // A write ends the hold of a source or not, if that is there.
    pub fn end(&mut self, source: usize, over: bool)
        ensures { marks_of self.new ≡ put_below N (marks_of self.old) source (ended over (marks_of self.old source)) }
    {
        self.change(source, |mark| mark.ended(over));
    }
}
