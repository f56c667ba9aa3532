use crate::net_k::{over_costs, over_numbers};
use costs::PathCost;
use entries::Entry;

#[test]
fn net_k_under_sum(rt: HostRuntime) {
    let mut waiting = [Entry { cost: 0, router: 0 }; 25];
    let mut best = [9; 7];
    let mut rest = [9; 28];
    let page = over_numbers(&mut best, &mut rest, &mut waiting);
    let mut costs = [None; 25];
    let mut best_again = [9; 7];
    let mut rest_again = [9; 28];
    let again = over_costs(&mut costs, &mut best_again, &mut rest_again, &mut waiting);
    assert_eq!(&rt; page, again);
    assert_eq!(&rt; best, best_again);
    assert_eq!(&rt; rest, rest_again);
    assert_eq!(&rt; (page.hop[3], page.valid[3]), (Some(1), 0b110));
    assert_eq!(&rt; best, [0, 1, 3, 3, 4, 9, 9]);
    assert!(&rt; &rest[5..10] == [0, 0, 3, 2, 3].as_slice());
}

// By 1 and by 2 there are two links to router 3, and the width is 1.
#[test]
fn net_k_under_hops_width(rt: HostRuntime) {
    let none = PathCost { hops: 0, width: 0 };
    let mut waiting = [Entry {
        cost: none,
        router: 0,
    }; 25];
    let mut best = [none; 5];
    let mut rest = [none; 25];
    let page = over_numbers(&mut best, &mut rest, &mut waiting);
    let mut costs = [None; 25];
    let mut best_again = [none; 5];
    let mut rest_again = [none; 25];
    let again = over_costs(&mut costs, &mut best_again, &mut rest_again, &mut waiting);
    assert_eq!(&rt; page, again);
    assert_eq!(&rt; best, best_again);
    assert_eq!(&rt; rest, rest_again);
    assert_eq!(&rt; (page.hop[3], page.valid[3]), (Some(1), 0b110));
    assert_eq!(&rt; best[3], PathCost { hops: 2, width: 1 });
    assert_eq!(&rt; rest[13], PathCost { hops: 1, width: 1 });
}
