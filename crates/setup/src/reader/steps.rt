// The reader's steps: a line as it stands, and what it says.
ghost use Rattle.std.specs.Prelude.{◌≡◌, ℕ, ◌+◌, ◌^◌, ◌<◌, ◌≤◌, length, ◌==◌, ◌≢◌, IfSome, slice_index};
ghost use Rattle.form.specs.Forms.{form_of};
ghost use Rattle.std.specs.Option.{option_map};
ghost use Rattle.setup.specs.Cutting.{Cut};
ghost use Rattle.setup.specs.Lines.{laid};
ghost use Rattle.setup.specs.Reading.{text_at, said_at, entry_from, place_after, none, first, rest, Yields};
ghost use Rattle.std.specs.Iterator.{at_most, item_count, YieldsFirstBy};

use super::{Entry, Placed, Reader, Text, Texts};
use fault::{Cause, Fault, Place};
use form::parse_line;

// How many bytes stand before the first newline, or before the end. Most lines are short: `memchr` is slower on a list of writes.
fn line_length(bytes: &[u8]) -> usize
    ensures within { result ≤ length bytes.now }
    ensures before { (k : ℕ) → k < result → slice_index bytes.now k ≢ 10 }
    ensures newline { result < length bytes.now → slice_index bytes.now result ≡ 10 }
{
    bytes
        .iter()
        .position(|b| *b == b'\n')
        .unwrap_or(bytes.len())
}

// Where the line after one at `place` begins, if that ends at `end` in a list of `len` bytes.
fn place_after(place: Place, end: usize, len: usize) -> Place
    requires { place.line + 1 < 2 ^ 64 }
    ensures { result ≡ place_after place end len }
{
    let offset = if end < len { end + 1 } else { end };
    Place {
        line: place.line + 1,
        offset,
    }
}

// What a line says; a trailer is the last line and only there.
fn entry_at<'a>(text: Text<'a>, last: bool) -> Result<Entry<'a>, Fault>
    ensures { said_at result ≡ entry_from text.entry.place last (form_of text.entry.line.now) }
{
    let place = text.place;
    match parse_line(text.line) {
        Some(line) if last || line.trailer_count().is_none() => Ok(Placed { place, line }),
        _ => Err(Cause::NoForm.at(place)),
    }
}

impl<'a> Reader<'a> {
    pub fn new(list: &'a [u8]) -> Reader<'a>
        ensures ahead { result ≡ laid list.now }
        ensures cut { Cut list.now result }
    {
        Reader {
            list,
            place: Place { line: 1, offset: 0 },
        }
    }

    fn is_at_end(&self) -> bool
        ensures { result ≡ none self.now }
    {
        self.place.offset == self.list.len()
    }

    // The next line, ended by a newline or by the end of the list.
    pub fn next_text(&mut self) -> Option<Text<'a>>
        ensures text { option_map text_at result ≡ first self.old }
        ensures ahead { self.new ≡ rest self.old }
        ensures counted { IfSome result (λ text. text.place.line ≤ text.place.offset + 1) }
        ensures within { IfSome result (λ text. text.place.offset + length text.line.now < 2 ^ 63) }
        ensures few { length self.old < 2 ^ 63 }
    {
        if self.is_at_end() {
            return None;
        }
        // By offsets, since a fault tells where its line begins.
        let list = self.list;
        let place = self.place;
        let start = place.offset;
        let end = start + line_length(&list[start..]);
        self.place = place_after(place, end, list.len());
        Some(Placed {
            place,
            line: &list[start..end],
        })
    }

    // The lines ahead, as an iterator.
    pub fn texts(self) -> Texts<'a>
        ensures { result ≡ self.entry }
    {
        Texts(self)
    }
}

impl<'a> Iterator for Reader<'a> {
    type Item = Result<Entry<'a>, Fault>;

    ghost next_gives = { Yields };

    ghost remaining = { λ s. at_most (length s) };

    fn next(&mut self) -> Option<Result<Entry<'a>, Fault>> {
        let text = self.next_text()?;
        let last = self.is_at_end();
        Some(entry_at(text, last))
    }
}

impl<'a> Iterator for Texts<'a> {
    type Item = Text<'a>;

    ghost next_gives = { YieldsFirstBy text_at (λ s. s) };

    ghost remaining = { item_count (λ s. s) };

    fn next(&mut self) -> Option<Text<'a>> {
        self.0.next_text()
    }
}
