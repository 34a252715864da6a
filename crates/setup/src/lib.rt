// The set-up list: its lines, one after the other, and whether it is well made.
#![tactic(auto)]

ghost use Rattle.std.specs.Prelude.{◌≡◌, ℕ, ◌-◌, ◌<◌, ◌≤◌, length, is_ok, Decides, ◌≢◌, slice_index};
ghost use Rattle.form.specs.Forms.{given, trailer_count, form_of};
ghost use Rattle.setup.specs.LastLine.{LastEnd, last_place};
ghost use Rattle.setup.specs.Lines.{laid};
ghost use Rattle.setup.specs.Reading.{entries};
ghost use Rattle.setup.specs.Verdict.{last_of, count_fault, trailer_fault, length_fault, ends_fault, first_in, first_fault, verdict, Newline};
ghost use Rattle.setup.specs.WellMade.{WellMade};

use fault::{Cause, Fault, Place};
use form::parse_line;
use reader::Reader;

pub mod reader;

// The most bytes that a list has.
pub const LONGEST: usize = 24_576;

// Where a final newline stands, or the end of a list that lacks it.
fn last_end(list: &[u8]) -> usize
    ensures { LastEnd list.now result }
{
    match list {
        [front @ .., b'\n'] => front.len(),
        _ => list.len(),
    }
}

// Where the line that ends at `end` begins. Searched from the end, since the last line is asked for before any other.
fn line_start(list: &[u8], end: usize) -> usize
    requires { end ≤ length list.now }
    ensures within { result ≤ end }
    ensures begins { 0 < result → slice_index list.now (result - 1) ≡ 10 }
    ensures single { (k : ℕ) → result ≤ k → k < end → slice_index list.now k ≢ 10 }
{
    list[..end]
        .iter()
        .rposition(|b| *b == b'\n')
        .map_or(0, |newline| newline + 1)
}

#[tactic(auto, using(crate::proofs::Lined::laid_few))]
fn line_count(list: &[u8]) -> usize
    ensures { result ≡ length (laid list.now) }
{
    Reader::new(list).texts().count()
}

// The count of a line's trailer, if it is one.
fn trailer_count(text: &[u8]) -> Option<u16>
    ensures { result ≡ given (form_of text.now) trailer_count }
{
    parse_line(text)?.trailer_count()
}

// A trailer counts the bytes before it. The lines are counted only for a fault.
fn check_count(list: &[u8], start: usize, count: Option<u16>) -> Result<(), Fault>
    ensures { result ≡ verdict (count_fault (last_place list.now start) count) }
{
    match count {
        Some(count) if usize::from(count) == start => Ok(()),
        Some(_) => Err(Cause::TrailerCount.at(Place {
            line: line_count(list),
            offset: start,
        })),
        None => Err(Cause::NoTrailer.unplaced()),
    }
}

fn check_trailer(list: &[u8]) -> Result<(), Fault>
    ensures { result ≡ verdict (trailer_fault (last_of (laid list.now))) }
{
    let end = last_end(list);
    let start = line_start(list, end);
    check_count(list, start, trailer_count(&list[start..end]))
}

fn check_length(list: &[u8]) -> Result<(), Fault>
    ensures { result ≡ verdict (length_fault list.now) }
{
    if list.len() > LONGEST {
        Err(Cause::ListTooLong.unplaced())
    } else {
        Ok(())
    }
}

// The checks that come before any line: the list's length, and its trailer.
pub fn check_ends(list: &[u8]) -> Result<(), Fault>
    ensures { result ≡ verdict (ends_fault list.now) }
{
    check_length(list)?;
    check_trailer(list)
}

// The first line that has none of the four forms, or is a trailer too early.
fn check_lines(list: &[u8]) -> Result<(), Fault>
    ensures { result ≡ verdict (first_in (entries (laid list.now))) }
{
    for entry in Reader::new(list) {
        entry?;
    }
    Ok(())
}

// Apart from `check_list`, whose relations are proved of this one equation.
fn check_whole(list: &[u8]) -> Result<(), Fault>
    ensures { result ≡ verdict (first_fault list.now) }
{
    check_ends(list)?;
    check_lines(list)
}

// Whether the list is well made, whatever units it is for.
pub fn check_list(list: &[u8]) -> Result<(), Fault>
    ensures verdict { result ≡ verdict (first_fault list.now) }
    ensures made { Decides (is_ok result) (WellMade list.now) }
    ensures newline { Newline list.now result }
{
    check_whole(list)
}
