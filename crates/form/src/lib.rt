// The four forms of a set-up line: a write, a fan count, a remark, the trailer.
#![tactic(auto)]

ghost use Rattle.std.specs.Prelude.{◌≡◌};
ghost use Rattle.std.specs.Option.{option_map};
ghost use Rattle.form.specs.Forms.{opening, hex_digit, hex_byte, decimal_digit, printable, all_printable, meaning, trailer_count, remark_shaped, as_write, as_fans, as_remark, as_trailer, formed, form_of};
ghost use Rattle.form.specs.Spelling.{Understood};

// A line without its newline. A remark is its own part of the list. Clauses say what it means by `meaning`, since an enum has no model.
#[derive(Clone, Copy, PartialEq, Eq, Debug)]
pub enum Line<'a> {
    Write { unit: u8, register: u8, byte: u8 },
    Fans { unit: u8, count: u8 },
    Remark(&'a [u8]),
    Trailer(u16),
}

impl Line<'_> {
    pub fn trailer_count(self) -> Option<u16>
        ensures { result ≡ trailer_count (meaning self.entry) }
    {
        match self {
            Line::Trailer(count) => Some(count),
            _ => None,
        }
    }
}

// The form that a line's first byte opens. An enum, since letters are the cases of a function of a lone `char`.
#[derive(Clone, Copy)]
enum Opening {
    Write,
    Fans,
    Remark,
    Trailer,
}

fn opening_of(first: char) -> Option<Opening>
    ensures { result ≡ opening first }
{
    match first {
        'w' => Some(Opening::Write),
        'f' => Some(Opening::Fans),
        '#' => Some(Opening::Remark),
        't' => Some(Opening::Trailer),
        _ => None,
    }
}

fn decimal_digit(b: u8) -> Option<u8>
    ensures { result ≡ decimal_digit b }
{
    match b {
        b'0'..=b'9' => Some(b - b'0'),
        _ => None,
    }
}

fn hex_digit(b: u8) -> Option<u8>
    ensures { result ≡ hex_digit b }
{
    match b {
        b'A'..=b'F' => Some(b - b'A' + 10),
        _ => decimal_digit(b),
    }
}

fn hex_byte(high: u8, low: u8) -> Option<u8>
    ensures { result ≡ hex_byte high low }
{
    Some(hex_digit(high)? * 16 + hex_digit(low)?)
}

fn is_printable(b: u8) -> bool
    ensures { result ≡ printable b }
{
    matches!(b, b' '..=b'~')
}

// No early return: a loop that always runs to the end is compiled to vector instructions.
fn all_printable(text: &[u8]) -> bool
    ensures { result ≡ all_printable text.now }
{
    text.iter().fold(true, |all, b| all & is_printable(*b))
}

fn write_line(text: &[u8]) -> Option<Line<'_>>
    ensures { option_map meaning result ≡ as_write text.now }
{
    let &[_, b' ', a1, a0, b' ', r1, r0, b' ', v1, v0] = text else {
        return None;
    };
    Some(Line::Write {
        unit: hex_byte(a1, a0)?,
        register: hex_byte(r1, r0)?,
        byte: hex_byte(v1, v0)?,
    })
}

fn fans_line(text: &[u8]) -> Option<Line<'_>>
    ensures { option_map meaning result ≡ as_fans text.now }
{
    let &[_, b' ', a1, a0, b' ', n] = text else {
        return None;
    };
    Some(Line::Fans {
        unit: hex_byte(a1, a0)?,
        count: decimal_digit(n)?,
    })
}

fn remark_line(text: &[u8]) -> Option<Line<'_>>
    ensures { option_map meaning result ≡ as_remark text.now }
{
    match text {
        [_, b' ', remark @ ..] if remark.len() <= 60 && all_printable(remark) => {
            Some(Line::Remark(remark))
        }
        _ => None,
    }
}

fn trailer_line(text: &[u8]) -> Option<Line<'_>>
    ensures { option_map meaning result ≡ as_trailer text.now }
{
    let &[_, b' ', l3, l2, l1, l0] = text else {
        return None;
    };
    let count = [hex_byte(l3, l2)?, hex_byte(l1, l0)?];
    Some(Line::Trailer(u16::from_be_bytes(count)))
}

// A match on the form, since no function may be handed out for it.
fn formed(opening: Opening, text: &[u8]) -> Option<Line<'_>>
    ensures { option_map meaning result ≡ formed text.now opening }
{
    match opening {
        Opening::Write => write_line(text),
        Opening::Fans => fans_line(text),
        Opening::Remark => remark_line(text),
        Opening::Trailer => trailer_line(text),
    }
}

// What a line without its newline says.
#[tactic(auto, using(crate::proofs::Spelled::understood_as))]
pub fn parse_line(text: &[u8]) -> Option<Line<'_>>
    ensures form { option_map meaning result ≡ form_of text.now }
    ensures spelling { Understood text.now (option_map meaning result) }
{
    let first = text.first()?;
    formed(opening_of(char::from(*first))?, text)
}
