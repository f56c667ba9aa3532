use crate::setup::*;
use area::Area;
use costs::PathCost;
use entries::Entry;
use grid::Grid;
use records::{Record, Records};
use std::process::Abort;
use tables::LinkTable;

// The costs from router 0 stand at the front of the handed memories, the rest costs in a row for each router, and the
// places behind them are untouched.
fn has_costs<T: LinkTable>(rt: &impl Abort, area: &mut Area<u32, T>) {
    let mut best = [9; 7];
    let mut rest = [9; 28];
    let mut waiting = [Entry { cost: 0, router: 0 }; 25];
    assert_eq!(rt; area.settle(0, &mut best, &mut rest, &mut waiting), Ok(()));
    assert_eq!(rt; best, [0, 1, 3, 3, 4, 9, 9]);
    assert!(rt; &rest[0..5] == [0; 5].as_slice());
    assert!(rt; &rest[5..10] == [0, 0, 3, 2, 3].as_slice());
    assert!(rt; &rest[10..15] == [0, 3, 0, 1, 2].as_slice());
    assert!(rt; &rest[15..25] == [0; 10].as_slice());
    assert!(rt; &rest[25..28] == [9; 3].as_slice());
}

fn has_hops<T: LinkTable>(rt: &impl Abort, area: &Area<u32, T>) {
    for (root, to, sets) in [
        (0, 0, (None, 0, 0)),
        (0, 2, (Some(2), 0b100, 0b10)),
        (0, 3, (Some(1), 0b110, 0)),
        (0, 4, (Some(1), 0b110, 0)),
        (2, 1, (Some(3), 0b1001, 0)),
        (3, 0, (Some(1), 0b10, 0b100)),
        (3, 4, (Some(4), 0b10000, 0)),
    ] {
        assert_eq!(rt; area.hops(root, to), Ok(sets));
    }
}

fn has_paths<T: LinkTable>(rt: &impl Abort, area: &Area<u32, T>) {
    let mut out = [9; 6];
    assert_eq!(rt; area.path(0, 0, &mut out), Ok(1));
    assert_eq!(rt; out, [0, 9, 9, 9, 9, 9]);
    assert_eq!(rt; area.path(0, 4, &mut out), Ok(4));
    assert_eq!(rt; out, [0, 1, 3, 4, 9, 9]);
}

// From 0 to 4 the first pick chooses between two valid hops; at the other routers there is one.
fn has_walks<T: LinkTable>(rt: &impl Abort, area: &Area<u32, T>) {
    for (picks, met) in [
        ([1, 0, 0, 0], [0, 2, 3, 4, 9, 9]),
        ([0, 0, 0, 0], [0, 1, 3, 4, 9, 9]),
    ] {
        let mut trail = [9; 6];
        assert_eq!(rt; area.walk(0, 4, &picks, &mut trail), Ok(3));
        assert_eq!(rt; trail, met);
    }
    let mut trail = [9; 5];
    assert_eq!(rt; area.walk(2, 2, &[0; 4], &mut trail), Ok(0));
    assert_eq!(rt; trail, [2, 9, 9, 9, 9]);
}

// What net K answers under `sum` on a table of five routers that keeps nothing yet.
fn is_net_k<T: LinkTable + Drop>(rt: &impl Abort, table: T) {
    let mut area: Area<u32, T> = Area::open(table);
    assert_eq!(rt; area.count(), 5);
    put_net_k(rt, &mut area);
    has_costs(rt, &mut area);
    settle_all(rt, &mut area);
    has_hops(rt, &area);
    has_paths(rt, &area);
    has_walks(rt, &area);
}

#[test]
fn net_k_on_a_grid(rt: HostRuntime) {
    let mut cells = [7u16; 25];
    is_net_k(&rt, Grid::make(&mut cells, 5));
}

#[test]
fn net_k_on_a_list(rt: HostRuntime) {
    let mut room = [Record::FREE; 10];
    is_net_k(&rt, Records::make(&mut room, 5));
}

// By 1 and by 2 there are two links to router 3, and the width is 1.
#[test]
fn net_k_under_hops_width(rt: HostRuntime) {
    let mut cells = [0u16; 25];
    let mut area: Area<PathCost, Grid> = Area::open(Grid::make(&mut cells, 5));
    put_net_k(&rt, &mut area);
    let none = PathCost { hops: 0, width: 0 };
    let mut waiting = [Entry {
        cost: none,
        router: 0,
    }; 25];
    assert_eq!(rt;
        area.settle(0, &mut [none; 5], &mut [none; 25], &mut waiting),
        Ok(())
    );
    assert_eq!(rt; area.hops(0, 3), Ok((Some(1), 0b110, 0)));
}
