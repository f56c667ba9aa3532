// Sets of routers as 32-bit masks.
// kept: a set is a number and has no type of its own: a rule of the project wants hops to answer 32-bit masks.
#![tactic(auto)]

ghost use Rattle.std.specs.Prelude.{◌≡◌, ℕ, ◌<◌, ◌≤◌, ◌||◌, ◌==◌};
ghost use Rattle.masks.specs.Sets.{holds, including, besides};

// Whether the router is in the set.
#[tactic(auto, using(crate::proofs::SetLaws::holds_past))]
pub fn has(mask: u32, router: usize) -> bool
    ensures { result ≡ holds mask router }
{
    router < 32 && mask >> router & 1 == 1
}

// The set with one router more. From 32 on, a router has no bit and the set stays as it is.
pub fn with(mask: u32, router: usize) -> u32
    ensures value { result ≡ including mask router }
    ensures added { router < 32 → (k : ℕ) → holds result k ≡ (k == router || holds mask k) }
    ensures past { 32 ≤ router → result ≡ mask }
{
    if router < 32 {
        mask | 1 << router
    } else {
        mask
    }
}

// The members of a set that are not in another.
pub fn without(mask: u32, other: u32) -> u32
    ensures { result ≡ besides mask other }
{
    mask & !other
}
