ghost use Rattle.std.specs.Prelude.{◌≡◌, Some};
ghost use Rattle.summary.specs.Rules.{spelt, named};

use linkfile::same;
use std::fmt;

// The cost rules by their names.
#[derive(Clone, Copy, Debug, PartialEq, Eq)]
pub enum RuleName {
    Sum,
    HopsWidth,
}

impl RuleName {
    // The rule of this name, if there is one.
    // kept: `TryFrom` would need an error that says no more than `None`.
    pub fn named(name: &[u8]) -> Option<RuleName>
        ensures { result ≡ named name.now }
    {
        if same(name, b"sum") {
            Some(RuleName::Sum)
        } else if same(name, b"hops-width") {
            Some(RuleName::HopsWidth)
        } else {
            None
        }
    }

    // The rule's name.
    pub fn name(self) -> &'static str
        ensures { result.now ≡ spelt self }
    {
        match self {
            RuleName::Sum => "sum",
            RuleName::HopsWidth => "hops-width",
        }
    }
}

impl fmt::Display for RuleName {
    ghost output = { λ rule. Some (spelt rule) };

    fn fmt<W: fmt::Write>(&self, f: &mut fmt::Formatter<W>) -> fmt::Result {
        f.write_str(self.name())
    }
}
