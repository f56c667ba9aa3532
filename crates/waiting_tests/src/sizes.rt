use crate::sums::{Step, at, make, run};
use waiting::Waiting;

#[test]
fn no_places(rt: HostRuntime) {
    run(&rt, &mut [], &[Step::Empty, Step::Full, Step::Empty], 0);
}

#[test]
fn one_place(rt: HostRuntime) {
    run(
        &rt,
        &mut [at(0, 0); 1],
        &[
            Step::Takes(7, 3),
            Step::Full,
            Step::Gives(7, 3),
            Step::Empty,
            Step::Takes(1, 1),
        ],
        1,
    );
}

// The routers go in as 0, 389, 778, .. modulo 1,024, and three in a row have the same cost.
#[test]
fn many_places(rt: HostRuntime) {
    let mut memory = [at(0, 0); 1024];
    let mut list = Waiting::new(&mut memory);
    for i in 0..1024usize {
        let router = i * 389 % 1024;
        make(&rt, &mut list, Step::Takes((router / 3) as u32, router));
    }
    make(&rt, &mut list, Step::Full);
    for i in 0..1024usize {
        make(&rt, &mut list, Step::Gives((i / 3) as u32, i));
    }
    make(&rt, &mut list, Step::Empty);
}
