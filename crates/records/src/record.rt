ghost use Rattle.std.specs.Prelude.{◌≡◌};
ghost use Rattle.records.specs.Lists.{holds};

// The number of a link from one router to another. A record with the number 0 is free.
// kept: 0 and no `Option`, since the caller hands the memory and a rule of the project fixes what a record of it holds.
#[derive(Clone, Copy, Debug, PartialEq, Eq)]
pub struct Record {
    pub from: usize,
    pub to: usize,
    pub number: u32,
}

impl Record {
    // A free record that names no pair.
    pub const FREE: Record = Record {
        from: 0,
        to: 0,
        number: 0,
    };

    // Whether it is in use for this pair.
    pub(crate) fn holds(self, from: usize, to: usize) -> bool
        ensures { result ≡ holds self from to }
    {
        self.number != 0 && from == self.from && to == self.to
    }
}
