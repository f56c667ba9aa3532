// What is worked out for one root, for each router: its father, its tree hop, its candidates and, of these, its valid hops.
// kept: four arrays, and no array of a struct for each router, since settling fills each array by a pass of its own, and path and
// walk read one of them.
#[derive(Clone, Copy, Debug, PartialEq, Eq)]
pub struct Page {
    pub father: [Option<u8>; 32],
    pub hop: [Option<u8>; 32],
    pub candidates: [u32; 32],
    pub valid: [u32; 32],
}
