use costs::{Cost, PathCost};

// Whether a link file calls the rule by this name.
fn is_named<'a, C: Cost>(name: &'a [u8]) -> bool {
    let own: &'a [u8] = C::name();
    own == name
}

// Numbers, and the costs that `sum` reads them as.
const READ_BY_SUM: [(u32, Option<u32>); 5] = [
    (0, None),
    (1, Some(1)),
    (65535, Some(65535)),
    (65536, None),
    (u32::MAX, None),
];

#[test]
fn sum_reads(rt: HostRuntime) {
    for case in &READ_BY_SUM {
        let (number, cost) = *case;
        assert_eq!(rt; <u32 as Cost>::read(number), cost);
    }
    assert_eq!(rt; <u32 as Cost>::zero(), 0);
    assert!(rt; <u32 as Cost>::lower(1, 2));
    assert!(rt; !<u32 as Cost>::lower(2, 2));
    assert!(rt; is_named::<u32>(b"sum"));
}

// Whether the number is read as one hop of its own width.
fn reads_as_width(number: u32) -> bool {
    <PathCost as Cost>::read(number).is_some_and(|cost| cost.hops == 1 && cost.width == number)
}

#[test]
fn hops_width_reads(rt: HostRuntime) {
    assert!(rt; !reads_as_width(0));
    assert!(rt; reads_as_width(1));
    assert!(rt; reads_as_width(65536));
    assert!(rt; reads_as_width(u32::MAX));
    assert_eq!(rt; <PathCost as Cost>::zero().width, u32::MAX);
    assert!(rt; is_named::<PathCost>(b"hops-width"));
}

#[test]
fn hops_width_orders(rt: HostRuntime) {
    let near = PathCost { hops: 1, width: 2 };
    let far = PathCost { hops: 2, width: 9 };
    let wide = PathCost { hops: 2, width: 10 };
    assert!(rt; <PathCost as Cost>::lower(near, far));
    assert!(rt; <PathCost as Cost>::lower(wide, far));
    assert!(rt; !<PathCost as Cost>::lower(far, wide));
    assert!(rt; !<PathCost as Cost>::lower(far, far));
}
