use crate::setup::*;
use area::Area;
use entries::Entry;
use faults::{Fault, Refusal};
use grid::Grid;
use records::{Record, Records};
use std::process::Abort;
use tables::LinkTable;

// A settle with so many places of each memory is refused by this, and leaves the costs as they were.
fn settle_refused<T: LinkTable>(
    rt: &impl Abort,
    area: &mut Area<u32, T>,
    root: usize,
    places: (usize, usize, usize),
    refusal: Refusal,
) {
    let mut best = [9; 5];
    let mut rest = [9; 25];
    let mut waiting = [Entry { cost: 9, router: 9 }; 25];
    assert!(rt; places.0 <= 5 && places.1 <= 25 && places.2 <= 25);
    let answer = area.settle(
        root,
        &mut best[..places.0],
        &mut rest[..places.1],
        &mut waiting[..places.2],
    );
    assert_eq!(rt; answer, Err(by_area(refusal)));
    assert_eq!(rt; best, [9; 5]);
    assert_eq!(rt; rest, [9; 25]);
    assert_eq!(rt; waiting, [Entry { cost: 9, router: 9 }; 25]);
}

#[test]
fn settle_in_order(rt: HostRuntime) {
    let mut cells = [0u16; 25];
    let mut area: Area<u32, Grid> = Area::open(Grid::make(&mut cells, 5));
    put_net_k(&rt, &mut area);
    for (root, places, refusal) in [
        (5, (0, 0, 0), Refusal::NoSuchRouter),
        (usize::MAX, (5, 25, 25), Refusal::NoSuchRouter),
        (0, (4, 25, 25), Refusal::MemoryTooShort),
        (0, (5, 24, 25), Refusal::MemoryTooShort),
        (0, (5, 25, 24), Refusal::MemoryTooShort),
    ] {
        settle_refused(&rt, &mut area, root, places, refusal);
    }
    stale(&rt, &area, 0);
}

// On a table of three routers that has room for two pairs.
fn changes_in_order<T: LinkTable + Drop>(rt: &impl Abort, table: T) {
    let mut area: Area<u32, T> = Area::open(table);
    assert_eq!(rt; area.put(0, 1, 5), Ok(()));
    assert_eq!(rt; area.put(1, 0, 5), Ok(()));
    for (from, to, number, fault) in [
        (3, 3, 0, by_area(Refusal::NoSuchRouter)),
        (2, 3, 0, by_area(Refusal::NoSuchRouter)),
        (2, 2, 0, by_area(Refusal::SameRouter)),
        (2, 1, 0, by_area(Refusal::NumberNotRead)),
        (2, 1, 1, Fault::of_table(Refusal::Full)),
    ] {
        assert_eq!(rt; area.put(from, to, number), Err(fault));
    }
    for (from, to, fault) in [
        (3, 3, by_area(Refusal::NoSuchRouter)),
        (2, 2, by_area(Refusal::SameRouter)),
        (2, 1, Fault::of_table(Refusal::NotKept)),
    ] {
        assert_eq!(rt; area.cut(from, to), Err(fault));
    }
}

#[test]
fn put_and_cut_in_order(rt: HostRuntime) {
    let mut room = [Record::FREE; 2];
    changes_in_order(&rt, Records::make(&mut room, 3));
}

#[test]
fn hops_in_order(rt: HostRuntime) {
    let mut cells = [0u16; 25];
    let mut area: Area<u32, Grid> = Area::open(Grid::make(&mut cells, 5));
    for (root, to, refusal) in [
        (5, 0, Refusal::NoSuchRouter),
        (0, 5, Refusal::NoSuchRouter),
        (0, 1, Refusal::StalePage),
    ] {
        assert_eq!(rt; area.hops(root, to), Err(by_area(refusal)));
    }
    settle(&rt, &mut area, 0);
    assert_eq!(rt; area.hops(0, 5), Err(by_area(Refusal::NoSuchRouter)));
    assert_eq!(rt; area.hops(0, 1), Ok((None, 0, 0)));
}

// Each path, from a root to a router in so many places, is refused by this, and leaves the memory as it was.
fn paths_refused<T: LinkTable>(
    rt: &impl Abort,
    area: &Area<u32, T>,
    cases: &[(usize, usize, usize, Refusal)],
) {
    for (root, to, places, refusal) in cases {
        let mut out = [9; 5];
        assert!(rt; *places <= 5);
        assert_eq!(rt;
            area.path(*root, *to, &mut out[..*places]),
            Err(by_area(*refusal))
        );
        assert_eq!(rt; out, [9; 5]);
    }
}

#[test]
fn path_in_order(rt: HostRuntime) {
    let mut cells = [0u16; 25];
    let mut area: Area<u32, Grid> = Area::open(Grid::make(&mut cells, 5));
    let stale = [
        (5, 0, 4, Refusal::NoSuchRouter),
        (0, 5, 4, Refusal::NoSuchRouter),
        (0, 1, 4, Refusal::MemoryTooShort),
        (0, 1, 5, Refusal::StalePage),
    ];
    paths_refused(&rt, &area, &stale);
    settle(&rt, &mut area, 0);
    let current = [
        (0, 1, 4, Refusal::MemoryTooShort),
        (0, 1, 5, Refusal::NoRoute),
    ];
    paths_refused(&rt, &area, &current);
}

// A walk with so many picks in so many places is refused by this, and leaves the trail as it was.
fn walk_refused<T: LinkTable>(
    rt: &impl Abort,
    area: &Area<u32, T>,
    ends: (usize, usize),
    picks: usize,
    places: usize,
    refusal: Refusal,
) {
    let mut trail = [9; 5];
    assert!(rt; picks <= 4 && places <= 5);
    assert_eq!(rt;
        area.walk(ends.0, ends.1, &[0; 4][..picks], &mut trail[..places]),
        Err(by_area(refusal))
    );
    assert_eq!(rt; trail, [9; 5]);
}

#[test]
fn walk_in_order(rt: HostRuntime) {
    let mut cells = [0u16; 25];
    let mut area: Area<u32, Grid> = Area::open(Grid::make(&mut cells, 5));
    settle(&rt, &mut area, 0);
    for (ends, picks, places, refusal) in [
        ((5, 0), 3, 4, Refusal::NoSuchRouter),
        ((0, 5), 3, 4, Refusal::NoSuchRouter),
        ((0, 1), 3, 4, Refusal::MemoryTooShort),
        ((0, 1), 3, 5, Refusal::TooFewPicks),
        ((0, 1), 4, 5, Refusal::StalePage),
    ] {
        walk_refused(&rt, &area, ends, picks, places, refusal);
    }
    settle_all(&rt, &mut area);
    walk_refused(&rt, &area, (0, 1), 4, 5, Refusal::NoRoute);
}

// The report is refused by this, and leaves the memory as it was.
fn report_refused<T: LinkTable>(
    rt: &impl Abort,
    area: &Area<u32, T>,
    root: usize,
    places: usize,
    refusal: Refusal,
) {
    let mut out = [9u8; 4096];
    assert!(rt; places <= 4096);
    assert_eq!(rt;
        area.report(root, &mut out[..places]),
        Err(by_area(refusal))
    );
    assert!(rt; out == [9; 4096]);
}

#[test]
fn report_in_order(rt: HostRuntime) {
    let mut cells = [0u16; 4];
    let mut area: Area<u32, Grid> = Area::open(Grid::make(&mut cells, 2));
    report_refused(&rt, &area, 2, 4095, Refusal::NoSuchRouter);
    report_refused(&rt, &area, 0, 4095, Refusal::MemoryTooShort);
    report_refused(&rt, &area, 0, 4096, Refusal::StalePage);
    settle(&rt, &mut area, 0);
    report_refused(&rt, &area, 0, 4095, Refusal::MemoryTooShort);
    report_refused(&rt, &area, 1, 4096, Refusal::StalePage);
}

#[test]
fn an_area_of_no_routers(rt: HostRuntime) {
    let mut cells = [0u16; 8];
    let mut area: Area<u32, Grid> = Area::open(Grid::make(&mut cells, 3));
    assert_eq!(rt; area.count(), 0);
    let no_router = Err(by_area(Refusal::NoSuchRouter));
    assert_eq!(rt; area.put(0, 1, 5), no_router);
    assert_eq!(rt; area.cut(0, 1), no_router);
    settle_refused(&rt, &mut area, 0, (5, 25, 25), Refusal::NoSuchRouter);
    paths_refused(&rt, &area, &[(0, 0, 5, Refusal::NoSuchRouter)]);
    walk_refused(&rt, &area, (0, 0), 4, 5, Refusal::NoSuchRouter);
    report_refused(&rt, &area, 0, 4096, Refusal::NoSuchRouter);
    let bad_count = Fault::Area {
        refusal: Refusal::BadCount,
        line: 1,
    };
    assert_eq!(rt;
        area.load(b"routers=0\nrule=sum\nend=links\n"),
        Err(bad_count)
    );
}
