use faults::{Fault, Refusal};
use grid::Grid;
use records::{Record, Records};
use std::process::Abort;
use tables::{LinkTable, TwoWay};

// A table's call is refused by this.
fn refused(rt: &impl Abort, answer: Result<(), Fault>, refusal: Refusal) {
    assert_eq!(rt; answer, Err(Fault::of_table(refusal)));
}

// What every table of 3 routers answers that has room for its pairs and keeps nothing yet.
fn puts<T: LinkTable>(rt: &impl Abort, table: &mut T) {
    assert_eq!(rt; table.count(), 3);
    assert_eq!(rt; table.put(0, 1, 5), Ok(()));
    assert_eq!(rt; table.put(0, 1, 65535), Ok(()));
    assert_eq!(rt; table.put(1, 0, 7), Ok(()));
    assert_eq!(rt; table.number(0, 1), Some(65535));
    assert_eq!(rt; table.number(1, 0), Some(7));
    refused(rt, table.put(3, 0, 1), Refusal::NoSuchRouter);
    refused(rt, table.put(0, usize::MAX, 1), Refusal::NoSuchRouter);
    refused(rt, table.put(3, 3, 0), Refusal::NoSuchRouter);
    refused(rt, table.put(2, 2, 0), Refusal::SameRouter);
    refused(rt, table.put(0, 2, 0), Refusal::NumberOutOfRange);
}

fn cuts<T: LinkTable>(rt: &impl Abort, table: &mut T) {
    refused(rt, table.cut(3, 3), Refusal::NoSuchRouter);
    refused(rt, table.cut(1, 1), Refusal::SameRouter);
    refused(rt, table.cut(2, 0), Refusal::NotKept);
    assert_eq!(rt; table.cut(1, 0), Ok(()));
    refused(rt, table.cut(1, 0), Refusal::NotKept);
    assert_eq!(rt; table.number(1, 0), None);
    assert_eq!(rt; table.number(0, 3), None);
    assert_eq!(rt; table.number(usize::MAX, 0), None);
    assert_eq!(rt; table.number(0, 0), None);
    assert_eq!(rt; table.number(0, 1), Some(65535));
}

#[test]
fn grid_and_list_alike(rt: HostRuntime) {
    let mut cells = [7u16; 10];
    let mut grid = Grid::make(&mut cells, 3);
    puts(&rt, &mut grid);
    cuts(&rt, &mut grid);
    let mut room = [Record::FREE; 6];
    let mut list = Records::make(&mut room, 3);
    puts(&rt, &mut list);
    cuts(&rt, &mut list);
}

#[test]
fn two_way_shows_pairs_with_a_reverse(rt: HostRuntime) {
    let mut cells = [0u16; 9];
    let mut table = TwoWay::new(Grid::make(&mut cells, 3));
    assert!(rt; !table.is_plain());
    assert_eq!(rt; table.put(0, 1, 5), Ok(()));
    assert_eq!(rt; table.number(0, 1), None);
    assert_eq!(rt; table.put(1, 0, 6), Ok(()));
    assert_eq!(rt; table.number(0, 1), Some(5));
    assert_eq!(rt; table.number(1, 0), Some(6));
    assert_eq!(rt; table.cut(0, 1), Ok(()));
    assert_eq!(rt; table.number(1, 0), None);
    assert_eq!(rt; table.limit(), 6);
}

#[test]
fn greatest_numbers(rt: HostRuntime) {
    let mut cells = [0u16; 4];
    let mut grid = Grid::make(&mut cells, 2);
    assert_eq!(rt; grid.put(0, 1, 65535), Ok(()));
    refused(&rt, grid.put(0, 1, 65536), Refusal::NumberOutOfRange);
    assert_eq!(rt; grid.greatest(), 65535);
    assert!(rt; grid.is_plain());
    let mut room = [Record::FREE; 2];
    let mut list = Records::make(&mut room, 2);
    assert_eq!(rt; list.put(0, 1, u32::MAX), Ok(()));
    assert_eq!(rt; list.number(0, 1), Some(u32::MAX));
    assert_eq!(rt; list.greatest(), u32::MAX);
}

#[test]
fn a_list_of_two_records(rt: HostRuntime) {
    let mut room = [Record::FREE; 2];
    let mut list = Records::make(&mut room, 3);
    assert_eq!(rt; list.put(0, 1, 5), Ok(()));
    assert_eq!(rt; list.put(1, 0, 5), Ok(()));
    refused(&rt, list.put(0, 2, 5), Refusal::Full);
    assert_eq!(rt; list.put(1, 0, 6), Ok(()));
    assert_eq!(rt; list.cut(0, 1), Ok(()));
    assert_eq!(rt; list.put(0, 2, 5), Ok(()));
    assert_eq!(rt; list.number(0, 1), None);
    assert_eq!(rt; list.number(0, 2), Some(5));
    assert_eq!(rt; list.number(1, 0), Some(6));
}

// Cells and routers of which no grid can be made, and why.
const NO_GRIDS: [(usize, usize, Refusal); 5] = [
    (0, 0, Refusal::BadCount),
    (9, 1, Refusal::BadCount),
    (9, 33, Refusal::BadCount),
    (9, usize::MAX, Refusal::BadCount),
    (8, 3, Refusal::MemoryTooShort),
];

// Records and routers of which no list can be made, and why.
const NO_LISTS: [(usize, usize, Refusal); 3] = [
    (1, 33, Refusal::BadCount),
    (1, 2, Refusal::MemoryTooShort),
    (0, 2, Refusal::MemoryTooShort),
];

#[test]
fn checks_before_making(rt: HostRuntime) {
    assert_eq!(rt; Grid::check(4, 2), Ok(()));
    assert_eq!(rt; Grid::check(1024, 32), Ok(()));
    for case in &NO_GRIDS {
        let (cells, count, refusal) = *case;
        refused(&rt, Grid::check(cells, count), refusal);
    }
    assert_eq!(rt; Records::check(2, 32), Ok(()));
    for case in &NO_LISTS {
        let (records, count, refusal) = *case;
        refused(&rt, Records::check(records, count), refusal);
    }
}

#[test]
fn tables_of_no_routers(rt: HostRuntime) {
    let mut cells = [7u16; 8];
    let mut grid = Grid::make(&mut cells, 3);
    assert_eq!(rt; grid.count(), 0);
    assert_eq!(rt; grid.limit(), 0);
    assert_eq!(rt; grid.number(0, 1), None);
    refused(&rt, grid.put(0, 1, 5), Refusal::NoSuchRouter);
    let kept = Record {
        from: 0,
        to: 1,
        number: 5,
    };
    let mut room = [kept; 2];
    let mut list = Records::make(&mut room, 33);
    assert_eq!(rt; list.count(), 0);
    assert_eq!(rt; list.number(0, 1), None);
    refused(&rt, list.put(0, 1, 5), Refusal::NoSuchRouter);
    refused(&rt, list.cut(0, 1), Refusal::NoSuchRouter);
}
