use crate::net_k::NUMBERS;
use entries::Entry;
use search::search;
use settling::Tree;
use squares::NumberSquare;

// What a search found, and a tree with it, are copied where they are handed on, and stay.
#[test]
fn found_and_tree_are_copied(rt: HostRuntime) {
    let mut best = [9; 5];
    let mut waiting = [Entry { cost: 0, router: 0 }; 25];
    let found = search(&NumberSquare::new(&NUMBERS, 5), 0, &mut best, &mut waiting);
    let tree = Tree {
        root: 0,
        found,
        father: [None; 32],
        hop: [None; 32],
    };
    let again = tree;
    assert_eq!(&rt; best, [0, 1, 3, 3, 4]);
    assert!(&rt; found.order.as_slice() == [0, 1, 2, 3, 4].as_slice());
    assert!(&rt; tree.found.order.as_slice() == [0, 1, 2, 3, 4].as_slice());
    assert_eq!(&rt; again.found.known, 0b11111);
}
