// Cost rules: how a link's number is read as a cost, and how costs are joined and ordered.
#![tactic(auto)]

ghost use Rattle.std.specs.Prelude.{◌≡◌, ℕ, List};
ghost use Rattle.costs.specs.Costs.{Costs, Laws, Joinable};

pub mod hops_width;
pub mod path;
pub mod sum;

pub use path::PathCost;

// A cost, by the rule that reads, joins and orders it: an impl is a rule.
pub trait Cost: Copy {
    ghost costs: { Costs Self };

    ghost title: { List ℕ };

    // The cost of the empty route.
    fn zero() -> Self
        ensures { result ≡ costs.zero };

    // The cost of a link with this number, if the rule reads it.
    fn read(number: u32) -> Option<Self>
        ensures { result ≡ costs.read number };

    // Up to 127 link costs can be joined.
    fn join(self, other: Self) -> Self
        requires { Joinable costs self other }
        ensures { result ≡ costs.join self other };

    // Whether this cost is strictly lower than the other.
    // kept: each rule has one order, whose laws are the rule's; `Ord` would ask for the same
    // order in `cmp` and `partial_cmp`, by hand, since the width counts downwards.
    fn lower(self, other: Self) -> bool
        ensures { result ≡ costs.lower self other };

    // The rule's name in a link file.
    fn name<'a>() -> &'a [u8]
        ensures { result.now ≡ title };

    ghost lawful: { Laws costs };
}
