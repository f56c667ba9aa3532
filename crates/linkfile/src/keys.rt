// A line is taken apart by its first bytes, a key and the byte `=`.
ghost use Rattle.std.specs.Prelude.{◌≡◌};
ghost use Rattle.std.specs.Str.{bytes_eq};
ghost use Rattle.linkfile.specs.Lines.{bad, said, held, answered, AnswerParts, apart};

use crate::line::{Key, Line};
use faults::{Fault, Refusal};

// The fault of a line that breaks the file's form.
pub fn bad_line(line: usize) -> Fault
    ensures { result ≡ bad line }
{
    Fault::Reader {
        refusal: Refusal::BadLine,
        line,
    }
}

// Whether these are the same bytes.
// kept: `==` between a part of the text and a literal needs `.as_slice()` at each use.
pub fn same(a: &[u8], b: &[u8]) -> bool
    ensures { result ≡ bytes_eq a.now b.now }
{
    a == b
}

// A line without its byte 10, taken apart.
pub(crate) fn take_apart<'a>(body: &'a [u8], line: usize) -> Result<Line<'a>, Fault>
    ensures answer { answered result ≡ apart body.now line }
    ensures parts { AnswerParts body.entry 0 result }
{
    if let [b'r', b'o', b'u', b't', b'e', b'r', b's', b'=', value @ ..] = body {
        let key = &body[..7];
        return Ok(Line::Routers { key, value, line });
    }
    if let [b'r', b'u', b'l', b'e', b'=', value @ ..] = body {
        let key = &body[..4];
        return Ok(Line::Rule { key, value, line });
    }
    if let [b'f', b'r', b'o', b'm', b'=', value @ ..] = body {
        let key = &body[..4];
        return Ok(Line::From { key, value, line });
    }
    if let [b't', b'o', b'=', value @ ..] = body {
        let key = &body[..2];
        return Ok(Line::To { key, value, line });
    }
    if let [b'w', b'e', b'i', b'g', b'h', b't', b'=', value @ ..] = body {
        let key = &body[..6];
        return Ok(Line::Weight { key, value, line });
    }
    if let [b'e', b'n', b'd', b'=', value @ ..] = body {
        let key = &body[..3];
        return Ok(Line::End { key, value, line });
    }
    Err(bad_line(line))
}

impl<'a> Line<'a> {
    // The line's number.
    pub fn number(self) -> usize
        ensures { result ≡ (said self.entry).line }
    {
        match self {
            Line::Routers { line, .. }
            | Line::Rule { line, .. }
            | Line::From { line, .. }
            | Line::To { line, .. }
            | Line::Weight { line, .. }
            | Line::End { line, .. } => line,
        }
    }

    // The value, if the line has this key; with another key it is out of place.
    pub fn value_under(self, key: Key) -> Result<&'a [u8], Fault>
        ensures { result ≡ held key self.entry }
    {
        match (key, self) {
            (Key::Routers, Line::Routers { value, .. })
            | (Key::Rule, Line::Rule { value, .. })
            | (Key::From, Line::From { value, .. })
            | (Key::To, Line::To { value, .. })
            | (Key::Weight, Line::Weight { value, .. })
            | (Key::End, Line::End { value, .. }) => Ok(value),
            (_, other) => Err(bad_line(other.number())),
        }
    }
}
