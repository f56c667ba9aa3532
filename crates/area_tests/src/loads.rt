use crate::setup::*;
use area::Area;
use costs::{Cost, PathCost};
use entries::Entry;
use faults::{Fault, Refusal};
use grid::Grid;
use records::{Record, Records};
use std::process::Abort;
use tables::LinkTable;

// Router 0 to 1 with number 7, and 1 to 0 with number 9.
const TWO_ROUTERS: &[u8] =
    b"routers=2\nrule=sum\nfrom=0\nto=1\nweight=7\nfrom=1\nto=0\nweight=9\nend=links\n";

// The area of the two routers, once settled, reports this of router 0 and writes nothing behind it.
fn reports_two_routers<T: LinkTable>(rt: &impl Abort, area: &mut Area<u32, T>) {
    settle(rt, area, 0);
    let mut out = [b'~'; 4096];
    assert_eq!(rt; area.report(0, &mut out), Ok(34));
    assert!(rt; &out[0..34] == b"root=0\nto=1\ntree=1\nvalid=1\nother=\n".as_slice());
    assert!(rt; out[34..].iter().all(|byte| *byte == b'~'));
}

#[test]
fn report_of_two_routers(rt: HostRuntime) {
    let mut cells = [0u16; 4];
    let mut area: Area<u32, Grid> = Area::open(Grid::make(&mut cells, 2));
    assert_eq!(rt; area.put(0, 1, 7), Ok(()));
    assert_eq!(rt; area.put(1, 0, 9), Ok(()));
    reports_two_routers(&rt, &mut area);
}

// The file of two routers is granted on a table of two.
fn loads_two_routers<T: LinkTable + Drop>(rt: &impl Abort, table: T) {
    let mut area: Area<u32, T> = Area::open(table);
    assert_eq!(rt; area.load(TWO_ROUTERS), Ok(()));
    reports_two_routers(rt, &mut area);
}

#[test]
fn two_routers_loaded(rt: HostRuntime) {
    let mut cells = [0u16; 4];
    loads_two_routers(&rt, Grid::make(&mut cells, 2));
    let mut room = [Record::FREE; 2];
    loads_two_routers(&rt, Records::make(&mut room, 2));
}

// Loads a file into a new area on a grid of two routers, under a rule.
fn load_by<C: Cost>(text: &[u8]) -> Result<(), Fault> {
    let mut cells = [0u16; 4];
    let mut area: Area<C, Grid> = Area::open(Grid::make(&mut cells, 2));
    area.load(text)
}

// The fault of the reader on this line.
fn bad_line(line: usize) -> Fault {
    let refusal = Refusal::BadLine;
    Fault::Reader { refusal, line }
}

#[test]
fn heads_refused(rt: HostRuntime) {
    let refusal = Refusal::BadCount;
    let bad_count = Fault::Area { refusal, line: 1 };
    for (text, answer) in [
        (b"routers=3\nrule=sum\n".as_slice(), Err(bad_count)),
        (b"routers=1\n", Err(bad_count)),
        (b"", Err(bad_line(1))),
        (b"rule=sum\n", Err(bad_line(1))),
        (b"routers=2\nrule=hops-width\nend=links\n", Err(bad_line(2))),
        (b"routers=2\nrule=sum\n", Err(bad_line(3))),
        (b"routers=2\nrule=sum\nend=links\n\n", Err(bad_line(4))),
        (b"routers=2\nrule=sum\nend=links\n", Ok(())),
    ] {
        assert_eq!(rt; load_by::<u32>(text), answer);
    }
    for (text, answer) in [
        (b"routers=33\nrule=sum\n".as_slice(), Err(bad_count)),
        (b"routers=2\nrule=sum\nend=links\n", Err(bad_line(2))),
    ] {
        assert_eq!(rt; load_by::<PathCost>(text), answer);
    }
}

// A refused first direction has line 5, which has its weight.
#[test]
fn first_directions_refused(rt: HostRuntime) {
    for (text, refusal) in [
        (
            b"routers=2\nrule=sum\nfrom=0\nto=5\nweight=0\n".as_slice(),
            Refusal::NoSuchRouter,
        ),
        (
            b"routers=2\nrule=sum\nfrom=0\nto=0\nweight=0\n",
            Refusal::SameRouter,
        ),
        (
            b"routers=2\nrule=sum\nfrom=0\nto=1\nweight=0\n",
            Refusal::NumberNotRead,
        ),
        (
            b"routers=2\nrule=sum\nfrom=0\nto=1\nweight=65536\n",
            Refusal::NumberNotRead,
        ),
    ] {
        assert_eq!(rt; load_by::<u32>(text), Err(Fault::Area { refusal, line: 5 }));
    }
    let refusal = Refusal::NumberOutOfRange;
    assert_eq!(rt;
        load_by::<PathCost>(b"routers=2\nrule=hops-width\nfrom=0\nto=1\nweight=65536\n"),
        Err(Fault::Table { refusal, line: 5 })
    );
}

// Three routers and three pairs.
const THREE_PAIRS: &[u8] =
    b"routers=3\nrule=sum\nfrom=0\nto=1\nweight=7\nfrom=1\nto=0\nweight=9\nfrom=0\nto=2\nweight=1\nend=links\n";

// The third pair has no room on the table, and the two before it stay.
fn third_pair_refused<T: LinkTable + Drop>(rt: &impl Abort, table: T) {
    let mut area: Area<u32, T> = Area::open(table);
    let refusal = Refusal::Full;
    assert_eq!(rt;
        area.load(THREE_PAIRS),
        Err(Fault::Table { refusal, line: 11 })
    );
    assert_eq!(rt; area.cut(0, 1), Ok(()));
    assert_eq!(rt; area.cut(1, 0), Ok(()));
}

#[test]
fn a_third_pair_in_two_records(rt: HostRuntime) {
    let mut room = [Record::FREE; 2];
    third_pair_refused(&rt, Records::make(&mut room, 3));
}

// Puts before the fault stay, and make pages stale; where none was granted, pages stay current.
#[test]
fn what_a_fault_leaves(rt: HostRuntime) {
    let mut cells = [0u16; 4];
    let mut area: Area<u32, Grid> = Area::open(Grid::make(&mut cells, 2));
    settle_all(&rt, &mut area);
    assert_eq!(rt;
        area.load(b"routers=2\nrule=sum\nfrom=0\nto=1\n"),
        Err(bad_line(5))
    );
    assert_eq!(rt; area.hops(0, 1), Ok((None, 0, 0)));
    assert_eq!(rt; area.cut(0, 1), Err(Fault::of_table(Refusal::NotKept)));
    assert_eq!(rt;
        area.load(b"routers=2\nrule=sum\nfrom=0\nto=1\nweight=7\nend=\n"),
        Err(bad_line(6))
    );
    stale(&rt, &area, 0);
    stale(&rt, &area, 1);
    assert_eq!(rt; area.cut(0, 1), Ok(()));
}

// Of a direction that stands twice the later number holds.
#[test]
fn a_direction_twice(rt: HostRuntime) {
    let mut cells = [0u16; 4];
    let mut area: Area<u32, Grid> = Area::open(Grid::make(&mut cells, 2));
    assert_eq!(rt; area.load(TWO_ROUTERS), Ok(()));
    let again = b"routers=2\nrule=sum\nfrom=0\nto=1\nweight=4\nfrom=0\nto=1\nweight=3\nend=links\n";
    assert_eq!(rt; area.load(again), Ok(()));
    let mut best = [0; 2];
    let mut waiting = [Entry { cost: 0, router: 0 }; 4];
    assert_eq!(rt;
        area.settle(0, &mut best, &mut [0; 4], &mut waiting),
        Ok(())
    );
    assert_eq!(rt; best, [0, 3]);
}
