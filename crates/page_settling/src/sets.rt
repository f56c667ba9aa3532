// The candidates and the valid hops of each router on the page of a root.
// kept: two arrays, as the page has them.
#[derive(Clone, Copy)]
pub struct Sets {
    pub candidates: [u32; 32],
    pub valid: [u32; 32],
}
