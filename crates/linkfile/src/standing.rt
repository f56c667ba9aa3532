ghost use Rattle.std.specs.Prelude.{◌≡◌};
ghost use Rattle.linkfile.specs.Reading.{stands, done};

use crate::reader::Reader;

impl<'a> Reader<'a> {
    // The number of the next line.
    pub fn next_number(&self) -> usize
        ensures { result ≡ (stands self.now).line }
    {
        self.line
    }

    // Whether nothing is left of the text.
    pub fn is_done(&self) -> bool
        ensures { result ≡ done (stands self.now) }
    {
        self.at == self.text.len()
    }
}
