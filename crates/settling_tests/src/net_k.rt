ghost use Rattle.std.specs.Prelude.{◌≡◌, ◌≤◌, length, None, slice_index_or};
ghost use Rattle.squares.specs.Squares.{EachRead};

use costs::Cost;
use entries::Entry;
use page_settling::settle;
use pagetable::Page;
use squares::{CostSquare, NumberSquare};

// Net K has five routers. The number of the link from one to another stands at place from * 5 + to.
pub(crate) const NUMBERS: [u32; 25] = [
    0, 1, 3, 0, 0, 1, 0, 0, 2, 0, 3, 0, 0, 1, 0, 0, 2, 1, 0, 1, 0, 0, 0, 1, 0,
];

// Settles router 0 over the numbers of the links.
pub(crate) fn over_numbers<C: Cost>(
    best: &mut [C],
    rest: &mut [C],
    waiting: &mut [Entry<C>],
) -> Page
    requires { (5 ≤ length best.old) × (25 ≤ length rest.old) × (25 ≤ length waiting.old) }
    ensures { (length best.new ≡ length best.old) × (length rest.new ≡ length rest.old) }
{
    settle(&NumberSquare::new(&NUMBERS, 5), 0, best, rest, waiting)
}

// Reads the costs of the links.
// kept: by places, as the contract speaks of places: the square of costs asks that each was read from some number.
fn read_all<C: Cost>(costs: &mut [Option<C>])
    requires { length costs.old ≡ 25 }
    ensures size { length costs.new ≡ 25 }
    ensures costs { EachRead C.Cost.costs (λ i. slice_index_or costs.new i None) }
{
    for i in 0..25 {
        costs[i] = C::read(NUMBERS[i]);
    }
}

// Settles router 0 over the costs of the links, which the handed places hold.
pub(crate) fn over_costs<C: Cost>(
    costs: &mut [Option<C>],
    best: &mut [C],
    rest: &mut [C],
    waiting: &mut [Entry<C>],
) -> Page
    requires { (length costs.old ≡ 25) × (5 ≤ length best.old) × (25 ≤ length rest.old) × (25 ≤ length waiting.old) }
    ensures { (length best.new ≡ length best.old) × (length rest.new ≡ length rest.old) }
{
    read_all(costs);
    settle(&CostSquare::new(costs, 5), 0, best, rest, waiting)
}
