ghost use Rattle.std.specs.Prelude.{◌≡◌, ◌<◌, ◌≤◌, ◌+◌, length};
ghost use Rattle.reports.specs.Texts.{Adds};
ghost use Rattle.reports.specs.Reports.{tree_text, value_text, entry_text};

use crate::lines::{Text, Value};
use pagetable::Page;

// A tree hop as the value of its line. It is a byte, which bounds its digits.
// kept: a function and no `From`, since not every `Option<u8>` is a hop, and its callers need the bound.
fn hop_value(hop: Option<u8>) -> Value
    ensures value { value_text result ≡ tree_text hop }
    ensures bound { length (tree_text hop) ≤ 3 }
{
    match hop {
        Some(n) => Value::Number(u32::from(n)),
        None => Value::Nothing,
    }
}

impl Text<'_> {
    // Adds the four lines towards a router, which take at most 125 bytes.
    // The hop is read from the page itself, where it is a byte.
    pub(crate) fn add_entry(&mut self, page: &Page, d: usize)
        requires { (d < 32) × (self.old.at + 125 ≤ length self.old.out.now) }
        ensures text { Adds self.old self.new (entry_text page.now d) }
        ensures bound { length (entry_text page.now d) ≤ 125 }
    {
        let (_, valid, other) = page.hops_to(d);
        self.add_line(b"to", Value::Number(d as u32));
        self.add_line(b"tree", hop_value(page.hop[d]));
        self.add_line(b"valid", Value::Set(valid));
        self.add_line(b"other", Value::Set(other));
    }
}
