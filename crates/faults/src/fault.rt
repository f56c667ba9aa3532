ghost use Rattle.std.specs.Prelude.{◌≡◌, Some};
ghost use Rattle.faults.specs.Faults.{refusal_of, line_of, fault_text};

use crate::refusal::Refusal;
use std::fmt;

// A refusal with the layer that refused and the line of the file that asked for it,
// counted from 1; the line is 0 where no file is read.
#[derive(Clone, Copy, Debug, PartialEq, Eq)]
pub enum Fault {
    Reader { refusal: Refusal, line: usize },
    Area { refusal: Refusal, line: usize },
    Table { refusal: Refusal, line: usize },
}

impl Fault {
    // A fault of the table, where no file is read.
    pub fn of_table(refusal: Refusal) -> Fault
        ensures { result ≡ Fault.Table refusal 0 }
    {
        Fault::Table { refusal, line: 0 }
    }

    // Why it was refused.
    pub fn refusal(self) -> Refusal
        ensures { result ≡ refusal_of self }
    {
        match self {
            Fault::Reader { refusal, .. }
            | Fault::Table { refusal, .. }
            | Fault::Area { refusal, .. } => refusal,
        }
    }

    // The line that it is about, or 0.
    pub fn line(self) -> usize
        ensures { result ≡ line_of self }
    {
        match self {
            Fault::Reader { line, .. } | Fault::Area { line, .. } | Fault::Table { line, .. } =>
                line,
        }
    }
}

// The two lines that programs print of a fault: the number of its refusal, and its line.
impl fmt::Display for Fault {
    ghost output = { λ fault. Some (fault_text fault) };

    fn fmt<W: fmt::Write>(&self, f: &mut fmt::Formatter<W>) -> fmt::Result {
        let number = self.refusal().number();
        let line = self.line();
        write!(f, "refused={number}\nline={line}\n")
    }
}
