use entries::Entry;
use faults::Refusal;
use std::process::Abort;
use waiting::Waiting;

// A call on the list, with what it answers.
#[derive(Clone, Copy)]
pub(crate) enum Step {
    // A push of this cost and router is granted.
    Takes(u32, usize),
    // A push is refused.
    Full,
    // A pop answers this cost and router.
    Gives(u32, usize),
    // A pop answers that none waits.
    Empty,
}

pub(crate) fn at(cost: u32, router: usize) -> Entry<u32> {
    Entry { cost, router }
}

// Makes one call.
pub(crate) fn make(rt: &impl Abort, list: &mut Waiting<Entry<u32>>, step: Step) {
    match step {
        Step::Takes(cost, router) => assert_eq!(rt; list.push(at(cost, router)), Ok(())),
        Step::Full => assert_eq!(rt; list.push(at(0, 0)), Err(Refusal::Full)),
        Step::Gives(cost, router) => assert_eq!(rt; list.pop(), Some(at(cost, router))),
        Step::Empty => assert_eq!(rt; list.pop(), None),
    }
}

// Makes the calls on a new list, which then has so many entries.
pub(crate) fn run(rt: &impl Abort, memory: &mut [Entry<u32>], steps: &[Step], len: usize) {
    let mut list = Waiting::new(memory);
    for s in steps {
        make(rt, &mut list, *s);
    }
    assert_eq!(rt; list.len(), len);
}

#[test]
fn sums_come_out_sorted(rt: HostRuntime) {
    run(
        &rt,
        &mut [at(9, 9); 8],
        &[
            Step::Takes(7, 3),
            Step::Takes(2, 5),
            Step::Takes(4294967295, 0),
            Step::Takes(2, 1),
            Step::Takes(0, 31),
            Step::Takes(7, 2),
            Step::Gives(0, 31),
            Step::Gives(2, 1),
            Step::Gives(2, 5),
            Step::Gives(7, 2),
            Step::Gives(7, 3),
            Step::Gives(4294967295, 0),
            Step::Empty,
        ],
        0,
    );
}

#[test]
fn pushes_between_pops(rt: HostRuntime) {
    run(
        &rt,
        &mut [at(0, 0); 4],
        &[
            Step::Empty,
            Step::Takes(5, 0),
            Step::Takes(3, 0),
            Step::Gives(3, 0),
            Step::Takes(9, 1),
            Step::Takes(1, 2),
            Step::Gives(1, 2),
            Step::Gives(5, 0),
            Step::Takes(2, 7),
            Step::Takes(9, 0),
            Step::Gives(2, 7),
        ],
        2,
    );
}

// Equal entries come out as often as they were pushed.
#[test]
fn equal_entries(rt: HostRuntime) {
    run(
        &rt,
        &mut [at(0, 0); 4],
        &[
            Step::Takes(4, 4),
            Step::Takes(4, 4),
            Step::Takes(1, 4),
            Step::Takes(4, 4),
            Step::Full,
            Step::Gives(1, 4),
            Step::Gives(4, 4),
            Step::Gives(4, 4),
            Step::Gives(4, 4),
            Step::Empty,
        ],
        0,
    );
}
