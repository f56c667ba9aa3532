ghost use Rattle.std.specs.Prelude.{Some};
ghost use Rattle.summary.specs.Printed.{summary_text};

use crate::names::RuleName;
use std::fmt;

// What a link file says, in short.
#[derive(Clone, Copy, Debug, PartialEq, Eq)]
pub struct Summary {
    pub routers: u32,
    pub rule: RuleName,
    pub directions: usize,
}

// The lines that the program prints of a summary.
impl fmt::Display for Summary {
    ghost output = { λ summary. Some (summary_text summary) };

    fn fmt<W: fmt::Write>(&self, f: &mut fmt::Formatter<W>) -> fmt::Result {
        let routers = self.routers;
        let rule = self.rule;
        let directions = self.directions;
        write!(
            f,
            "routers={routers}\nrule={rule}\ndirections={directions}\n"
        )
    }
}
