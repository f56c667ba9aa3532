// A row of costs, one for each router.
ghost use Rattle.std.specs.Prelude.{◌≡◌, ℕ, ◌<◌, ◌≢◌, length, slice_index_or};
ghost use Rattle.squares.specs.Known.{costs_in, with_offer};
ghost use Rattle.settling.specs.Costs.{costs_of, SameMemory};

use crate::cost_of;
use costs::Cost;
use masks::{has, with};

// Costs in handed memory, that of each router at its place: there is one for the routers of the mask.
// kept: a mask beside a memory of plain costs, since the caller hands the memory and keeps it (no heap).
#[derive(Drop)]
pub struct Row<'a, C> {
    pub costs: &'a mut [C],
    pub reached: u32,
}

impl<'a, C: Cost> Row<'a, C> {
    // The cost that stands at a router, where it is one of these.
    pub(crate) fn among(&self, routers: u32, router: usize) -> Option<C>
        requires { router < length self.now.costs.now }
        ensures { result ≡ costs_in C.Cost.costs self.now.costs.now routers router }
    {
        cost_of(self.costs, routers, router)
    }

    // The cost at a router, if there is one.
    pub(crate) fn get(&self, router: usize) -> Option<C>
        requires { router < length self.now.costs.now }
        ensures { result ≡ costs_of C.Cost.costs self.now router }
    {
        self.among(self.reached, router)
    }

    // Offers a cost to a router, which takes it where it had none or a higher one.
    pub(crate) fn offer(&mut self, to: usize, offered: Option<C>)
        requires { (to < length self.old.costs.now) × (to < 32) }
        ensures costs { (d : ℕ) → costs_of C.Cost.costs self.new d ≡ with_offer C.Cost.costs (costs_of C.Cost.costs self.old) to offered d }
        ensures others { (k : ℕ) → k ≢ to → slice_index_or self.new.costs.now k C.Cost.costs.zero ≡ slice_index_or self.old.costs.now k C.Cost.costs.zero }
        ensures memory { SameMemory self.old self.new }
    {
        let Some(cost) = offered else {
            return;
        };
        if has(self.reached, to) && !cost.lower(self.costs[to]) {
            return;
        }
        self.costs[to] = cost;
        self.reached = with(self.reached, to);
    }
}
