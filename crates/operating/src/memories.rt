use entries::Entry;

// The memories that calls write, handed over once for a whole list of calls: each call writes only those that are its own.
#[derive(Drop)]
pub struct Memories<'a, C> {
    // Best costs and rest costs, where settle leaves them, and the entries that wait meanwhile.
    pub best: &'a mut [C],
    pub rest: &'a mut [C],
    pub waiting: &'a mut [Entry<C>],
    // Where path and walk write routers.
    pub path: &'a mut [usize],
    pub trail: &'a mut [usize],
}
