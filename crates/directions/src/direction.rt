// One direction of a link as the file has it, with the line of its weight.
#[derive(Clone, Copy, Debug, PartialEq, Eq)]
pub struct Direction {
    pub from: u32,
    pub to: u32,
    pub number: u32,
    pub line: usize,
}
