// A text of lines, each a key, `=`, a value and byte 10.
ghost use Rattle.reports.specs.Texts.{Fits, Adds};
ghost use Rattle.reports.specs.Reports.{line, value_text};

use decimals::{write_number, write_set};
use memory::write;

// What stands behind the `=` of a line.
pub(crate) enum Value {
    Number(u32),
    Set(u32),
    Nothing,
}

// A text that grows in handed memory: what is added next stands from the place `at` on.
// kept: a place beside the memory and no `Vec` or `String`, since the caller hands the memory and nothing here allocates.
#[derive(Drop)]
pub(crate) struct Text<'a> {
    pub(crate) out: &'a mut [u8],
    pub(crate) at: usize,
}

impl Text<'_> {
    // Adds these bytes.
    fn add(&mut self, bytes: &[u8])
        requires { Fits self.old bytes.now }
        ensures { Adds self.old self.new bytes.now }
    {
        self.at = write(self.out, self.at, bytes).unwrap();
    }

    // Adds a value.
    fn add_value(&mut self, value: Value)
        requires { Fits self.old (value_text value) }
        ensures { Adds self.old self.new (value_text value) }
    {
        self.at = match value {
            Value::Number(n) => write_number(self.out, self.at, n).unwrap(),
            Value::Set(mask) => write_set(self.out, self.at, mask).unwrap(),
            Value::Nothing => self.at,
        };
    }

    // Adds a line.
    pub(crate) fn add_line(&mut self, key: &[u8], value: Value)
        requires { Fits self.old (line key.now (value_text value)) }
        ensures { Adds self.old self.new (line key.now (value_text value)) }
    {
        self.add(key);
        self.add(b"=");
        self.add_value(value);
        self.add(b"\n");
    }
}
