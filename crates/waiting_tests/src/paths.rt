use costs::PathCost;
use entries::Entry;
use std::process::Abort;
use waiting::Waiting;

// An entry by its hops, width and router.
fn at(parts: (u32, u32, usize)) -> Entry<PathCost> {
    Entry {
        cost: PathCost {
            hops: parts.0,
            width: parts.1,
        },
        router: parts.2,
    }
}

// The first go in, and the others come out, in this order.
fn run(
    rt: &impl Abort,
    memory: &mut [Entry<PathCost>],
    pushed: &[(u32, u32, usize)],
    popped: &[(u32, u32, usize)],
) {
    let mut list = Waiting::new(memory);
    for parts in pushed {
        assert_eq!(rt; list.push(at(*parts)), Ok(()));
    }
    for parts in popped {
        assert_eq!(rt; list.pop(), Some(at(*parts)));
    }
    assert_eq!(rt; list.len(), 0);
}

// Fewer hops first, then the greater width, then the lower router number.
#[test]
fn paths_come_out_sorted(rt: HostRuntime) {
    let wide = u32::MAX;
    run(
        &rt,
        &mut [at((0, 0, 0)); 8],
        &[
            (2, 10, 4),
            (1, 5, 8),
            (2, 40, 6),
            (1, wide, 9),
            (2, 40, 5),
            (0, 1, 0),
            (3, wide, 1),
        ],
        &[
            (0, 1, 0),
            (1, wide, 9),
            (1, 5, 8),
            (2, 40, 5),
            (2, 40, 6),
            (2, 10, 4),
            (3, wide, 1),
        ],
    );
}
