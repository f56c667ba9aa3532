ghost use Rattle.std.specs.Prelude.{◌≡◌, ◌≤◌, length};
ghost use Rattle.linkfile.specs.Lines.{before, answered, AnswerParts};
ghost use Rattle.linkfile.specs.Reading.{stands, lent, start, next_said, onward};

use crate::keys::{bad_line, take_apart};
use crate::line::Line;
use crate::reader::Reader;
use faults::Fault;

// The place of the first byte `b` in the text, or the text's length.
pub(crate) fn find(text: &[u8], b: u8) -> usize
    ensures place { result ≡ before b text.now }
    ensures bound { result ≤ length text.now }
{
    text.iter().position(|x| *x == b).unwrap_or(text.len())
}

impl<'a> Reader<'a> {
    // A reader that stands before the first line.
    pub fn new(text: &'a [u8]) -> Reader<'a>
        ensures text { lent result ≡ text.entry }
        ensures reader { stands result ≡ start text.now }
    {
        Reader {
            text,
            at: 0,
            line: 1,
        }
    }

    // The next line, or the fault 7 on it. The reader stands behind the line then; where the
    // line is missing or unended it stays.
    pub fn next_line(&mut self) -> Result<Line<'a>, Fault>
        ensures answer { answered result ≡ next_said (stands self.old) }
        ensures text { lent self.new ≡ lent self.old }
        ensures parts { AnswerParts (lent self.old) (stands self.old).place result }
        ensures reader { stands self.new ≡ onward (stands self.old) }
    {
        let line = self.line;
        let text = self.text;
        let rest = &text[self.at..];
        let len = find(rest, b'\n');
        if len == rest.len() {
            return Err(bad_line(line));
        }
        self.at += len + 1;
        self.line = line + 1;
        take_apart(&rest[..len], line)
    }
}
