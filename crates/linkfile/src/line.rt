// The keys of a file's lines.
#[derive(Clone, Copy, Debug, PartialEq, Eq)]
pub enum Key {
    Routers,
    Rule,
    From,
    To,
    Weight,
    End,
}

// A line of the file, by its key. Key and value are parts of the lent text; lines count from 1.
// kept: a rule of the project wants a case for each key that holds the borrowed key and value.
#[derive(Clone, Copy, Debug, PartialEq, Eq)]
pub enum Line<'a> {
    Routers {
        key: &'a [u8],
        value: &'a [u8],
        line: usize,
    },
    Rule {
        key: &'a [u8],
        value: &'a [u8],
        line: usize,
    },
    From {
        key: &'a [u8],
        value: &'a [u8],
        line: usize,
    },
    To {
        key: &'a [u8],
        value: &'a [u8],
        line: usize,
    },
    Weight {
        key: &'a [u8],
        value: &'a [u8],
        line: usize,
    },
    End {
        key: &'a [u8],
        value: &'a [u8],
        line: usize,
    },
}
