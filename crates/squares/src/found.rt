use crate::sequence::Sequence;

// The routers that a search found a route to, as a set and in the order in which they were done.
// kept: a set beside the sequence of the same routers, since a set is tested at once and only a sequence has an order.
#[derive(Clone, Copy)]
pub struct Found {
    pub known: u32,
    pub order: Sequence,
}
