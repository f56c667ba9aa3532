ghost use Rattle.std.specs.Prelude.{◌+◌, ◌≤◌, length};

// kept: a place beside the text, since a rule of the project wants a struct over the lent text with its place.
// A reader over the lent text: the place of the next byte and the number of the next line.
#[derive(Clone, Copy)]
pub struct Reader<'a> {
    pub(crate) text: &'a [u8],
    pub(crate) at: usize,
    pub(crate) line: usize,
    ghost inside: { at ≤ length text.now },
    ghost lines: { line ≤ at + 1 },
}
