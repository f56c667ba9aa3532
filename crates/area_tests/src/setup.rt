use area::Area;
use costs::Cost;
use entries::Entry;
use faults::{Fault, Refusal};
use std::process::Abort;
use tables::LinkTable;

// Net K has five routers. Each of its links stands in both directions, with the same number.
const LINKS: [(usize, usize, u32); 5] = [(0, 1, 1), (0, 2, 3), (1, 3, 2), (2, 3, 1), (3, 4, 1)];

// Puts the links of net K.
pub(crate) fn put_net_k<C: Cost, T: LinkTable>(rt: &impl Abort, area: &mut Area<C, T>) {
    for (a, b, number) in LINKS {
        assert_eq!(rt; area.put(a, b, number), Ok(()));
        assert_eq!(rt; area.put(b, a, number), Ok(()));
    }
}

// A fault of the area, where no file is read.
pub(crate) fn by_area(refusal: Refusal) -> Fault {
    Fault::Area { refusal, line: 0 }
}

// Settles a root of at most five under `sum`.
pub(crate) fn settle<T: LinkTable>(rt: &impl Abort, area: &mut Area<u32, T>, root: usize) {
    let mut waiting = [Entry { cost: 0, router: 0 }; 25];
    assert_eq!(rt;
        area.settle(root, &mut [0; 5], &mut [0; 25], &mut waiting),
        Ok(())
    );
}

// Settles all routers of at most five.
pub(crate) fn settle_all<T: LinkTable>(rt: &impl Abort, area: &mut Area<u32, T>) {
    for root in 0..area.count() {
        settle(rt, area, root);
    }
}

// The root's page is stale.
pub(crate) fn stale<C: Cost, T: LinkTable>(rt: &impl Abort, area: &Area<C, T>, root: usize) {
    assert_eq!(rt; area.hops(root, root), Err(by_area(Refusal::StalePage)));
}
