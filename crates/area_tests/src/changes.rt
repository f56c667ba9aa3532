use crate::setup::*;
use area::Area;
use costs::PathCost;
use faults::{Fault, Refusal};
use grid::Grid;
use records::{Record, Records};
use std::process::Abort;
use tables::LinkTable;

#[test]
fn a_granted_change_makes_pages_stale(rt: HostRuntime) {
    let mut cells = [0u16; 25];
    let mut area: Area<u32, Grid> = Area::open(Grid::make(&mut cells, 5));
    put_net_k(&rt, &mut area);
    stale(&rt, &area, 0);
    settle_all(&rt, &mut area);
    assert_eq!(rt; area.put(0, 1, 1), Ok(()));
    stale(&rt, &area, 0);
    stale(&rt, &area, 4);
    settle(&rt, &mut area, 0);
    assert_eq!(rt; area.hops(0, 2), Ok((Some(2), 0b100, 0b10)));
    stale(&rt, &area, 4);
    assert_eq!(rt; area.cut(3, 4), Ok(()));
    stale(&rt, &area, 0);
}

#[test]
fn a_refused_change_leaves_pages_current(rt: HostRuntime) {
    let mut cells = [0u16; 25];
    let mut area: Area<u32, Grid> = Area::open(Grid::make(&mut cells, 5));
    put_net_k(&rt, &mut area);
    settle(&rt, &mut area, 0);
    assert_eq!(rt; area.put(0, 1, 0), Err(by_area(Refusal::NumberNotRead)));
    assert_eq!(rt; area.cut(0, 4), Err(Fault::of_table(Refusal::NotKept)));
    assert_eq!(rt; area.hops(0, 2), Ok((Some(2), 0b100, 0b10)));
}

// A link needs both directions: without 3 to 4 no route leads to 4, and none from it.
#[test]
fn one_direction_cut(rt: HostRuntime) {
    let mut cells = [0u16; 25];
    let mut area: Area<u32, Grid> = Area::open(Grid::make(&mut cells, 5));
    put_net_k(&rt, &mut area);
    assert_eq!(rt; area.cut(3, 4), Ok(()));
    settle_all(&rt, &mut area);
    assert_eq!(rt; area.hops(3, 4), Ok((None, 0, 0)));
    assert_eq!(rt; area.hops(4, 3), Ok((None, 0, 0)));
    let mut out = [9; 6];
    assert_eq!(rt; area.path(0, 4, &mut out), Err(by_area(Refusal::NoRoute)));
    assert_eq!(rt;
        area.walk(0, 4, &[0; 4], &mut out),
        Err(by_area(Refusal::NoRoute))
    );
    assert_eq!(rt; out, [9; 6]);
    assert_eq!(rt; area.path(4, 4, &mut out), Ok(1));
    assert_eq!(rt; out, [4, 9, 9, 9, 9, 9]);
}

// The numbers that `sum` reads, on a table of two routers.
fn puts_by_sum<T: LinkTable + Drop>(rt: &impl Abort, table: T) {
    let mut area: Area<u32, T> = Area::open(table);
    let not_read = by_area(Refusal::NumberNotRead);
    assert_eq!(rt; area.put(0, 1, 0), Err(not_read));
    for number in [1, 65535] {
        assert_eq!(rt; area.put(0, 1, number), Ok(()));
    }
    for number in [65536, u32::MAX] {
        assert_eq!(rt; area.put(0, 1, number), Err(not_read));
    }
}

#[test]
fn numbers_under_sum(rt: HostRuntime) {
    let mut cells = [0u16; 4];
    puts_by_sum(&rt, Grid::make(&mut cells, 2));
    let mut room = [Record::FREE; 2];
    puts_by_sum(&rt, Records::make(&mut room, 2));
}

// `hops-width` reads every number but 0: the rest is up to the table.
#[test]
fn numbers_under_hops_width(rt: HostRuntime) {
    let mut cells = [0u16; 4];
    let mut area: Area<PathCost, Grid> = Area::open(Grid::make(&mut cells, 2));
    assert_eq!(rt; area.put(0, 1, 0), Err(by_area(Refusal::NumberNotRead)));
    assert_eq!(rt; area.put(0, 1, 65535), Ok(()));
    assert_eq!(rt;
        area.put(0, 1, 65536),
        Err(Fault::of_table(Refusal::NumberOutOfRange))
    );
}

// A table of three routers that has room for two pairs.
fn has_room_for_two<T: LinkTable + Drop>(rt: &impl Abort, table: T) {
    let mut area: Area<u32, T> = Area::open(table);
    assert_eq!(rt; area.put(0, 1, 5), Ok(()));
    assert_eq!(rt; area.put(1, 0, 5), Ok(()));
    assert_eq!(rt; area.put(0, 2, 5), Err(Fault::of_table(Refusal::Full)));
    assert_eq!(rt; area.put(1, 0, 6), Ok(()));
    assert_eq!(rt; area.cut(0, 1), Ok(()));
    assert_eq!(rt; area.put(0, 2, 5), Ok(()));
    assert_eq!(rt; area.cut(0, 1), Err(Fault::of_table(Refusal::NotKept)));
}

#[test]
fn a_list_of_two_records(rt: HostRuntime) {
    let mut room = [Record::FREE; 2];
    has_room_for_two(&rt, Records::make(&mut room, 3));
}
