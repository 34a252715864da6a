// What a set-up list holds: how many lines of each form come before its trailer.
#![tactic(auto)]

ghost use Rattle.std.specs.Prelude.{◌≡◌, ◌+◌, ◌^◌, ◌<◌, Some};
ghost use Rattle.form.specs.Forms.{form_of};
ghost use Rattle.setup.specs.Lines.{laid};
ghost use Rattle.setup.specs.Verdict.{first_fault};
ghost use Rattle.summary.specs.Holdings.{noted, holdings, summed, summary_line};

use fault::Fault;
use form::{Line, parse_line};
use setup::check_list;
use setup::reader::Reader;
use std::fmt;

#[derive(Clone, Copy, PartialEq, Eq, Debug, Default)]
pub struct Summary {
    pub writes: usize,
    pub counts: usize,
    pub remarks: usize,
}

impl Summary {
    // One line more.
    fn note(&mut self, text: &[u8])
        requires { (self.old.writes + 1 < 2 ^ 64) × (self.old.counts + 1 < 2 ^ 64) × (self.old.remarks + 1 < 2 ^ 64) }
        ensures { self.new ≡ noted self.old (form_of text.now) }
    {
        match parse_line(text) {
            Some(Line::Write { .. }) => self.writes += 1,
            Some(Line::Fans { .. }) => self.counts += 1,
            Some(Line::Remark(_)) => self.remarks += 1,
            Some(Line::Trailer(_)) | None => {}
        }
    }
}

#[tactic(auto, using(setup::proofs::Lined::laid_few))]
fn tally(list: &[u8]) -> Summary
    ensures { result ≡ holdings (laid list.now) }
{
    // No fold: that the counts stay in range is an invariant, by the lines that are left.
    let mut summary = Summary::default();
    for text in Reader::new(list).texts() {
        summary.note(text.line);
    }
    summary
}

// What a good list holds, or its fault.
pub fn summarize(list: &[u8]) -> Result<Summary, Fault>
    ensures { result ≡ summed (first_fault list.now) (holdings (laid list.now)) }
{
    check_list(list)?;
    Ok(tally(list))
}

impl fmt::Display for Summary {
    ghost output = { λ s. Some (summary_line s) };

    fn fmt<W: fmt::Write>(&self, f: &mut fmt::Formatter<W>) -> fmt::Result {
        let Summary {
            writes,
            counts,
            remarks,
        } = *self;
        write!(f, "writes {writes}, fan counts {counts}, remarks {remarks}")
    }
}
