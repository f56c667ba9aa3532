use faults::Fault;

// A call on an area. The memories that calls write are handed over beside the calls.
#[derive(Clone, Copy, Debug, PartialEq, Eq)]
pub enum Call<'a> {
    Put {
        from: usize,
        to: usize,
        number: u32,
    },
    Cut {
        from: usize,
        to: usize,
    },
    Settle {
        root: usize,
    },
    Hops {
        root: usize,
        to: usize,
    },
    Path {
        root: usize,
        to: usize,
    },
    Walk {
        from: usize,
        to: usize,
        picks: &'a [usize],
    },
}

// What a call answered: put, cut and settle nothing but their fault, hops the tree hop and the two sets, path and walk a number.
#[derive(Clone, Copy, Debug, PartialEq, Eq)]
pub enum Answer {
    Done(Result<(), Fault>),
    Found(Result<(Option<usize>, u32, u32), Fault>),
    Wrote(Result<usize, Fault>),
}
