ghost use Rattle.std.specs.Prelude.{◌≡◌, ◌<◌, ◌≤◌, ◌+◌, length};
ghost use Rattle.reports.specs.Texts.{Adds};
ghost use Rattle.reports.specs.Reports.{report_text, report_answer, report_leaves};

use crate::lines::{Text, Value};
use faults::Refusal;
use pagetable::Page;

impl Text<'_> {
    // Adds the report of a page, which takes at most 4,096 bytes.
    fn add_report(&mut self, page: &Page, count: usize, root: usize)
        requires { (count ≤ 32) × (root < count) × (self.old.at + 4096 ≤ length self.old.out.now) }
        ensures text { Adds self.old self.new (report_text count root page.now) }
        ensures bound { length (report_text count root page.now) ≤ 4096 }
    {
        self.add_line(b"root", Value::Number(root as u32));
        for d in 0..count {
            if d != root {
                self.add_entry(page, d);
            }
        }
    }
}

// Writes the report of a page to the front of the memory and answers how many bytes it has.
// 4,096 bytes always suffice: where there are fewer, it refuses by 5 and leaves the memory as it was.
// The last clause says that they do: no report that is written has more.
pub fn write_report(
    page: &Page,
    count: usize,
    root: usize,
    out: &mut [u8],
) -> Result<usize, Refusal>
    requires { (count ≤ 32) × (root < count) }
    ensures answer { result ≡ report_answer (length out.old) (report_text count root page.now) }
    ensures memory { out.new ≡ report_leaves out.old (report_text count root page.now) }
    ensures fits { 4096 ≤ length out.old → length (report_text count root page.now) ≤ 4096 }
{
    if out.len() < 4096 {
        return Err(Refusal::MemoryTooShort);
    }
    let mut text = Text { out, at: 0 };
    text.add_report(page, count, root);
    Ok(text.at)
}
