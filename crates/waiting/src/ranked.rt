// What a waiting list asks of its entries. In a file of its own, since `Waiting` names `before` and the specs name `Waiting`.
ghost use Rattle.std.specs.Prelude.{◌≡◌, Bool};
ghost use Rattle.waiting.specs.Order.{Ordered};

// Values with a total order.
// kept: the order is a member that contracts name, and for entries it is made of the test that a
// cost rule has; `Ord` would ask for four impls, and for a cost that is `Ord` itself.
pub trait Ranked: Copy {
    ghost before: { Self → Self → Bool };

    // Whether this value comes before the other.
    fn precedes(self, other: Self) -> bool
        ensures { result ≡ before self other };

    ghost ordered: { Ordered before };
}
