// Best costs from one router, nearest router first, for every cost rule and however the links are kept.
#![tactic(auto)]

ghost use Rattle.std.specs.Prelude.{◌≡◌, ◌+◌, ◌<◌, ◌≤◌, length, Some};
ghost use Rattle.routes.specs.Leasts.{joined};
ghost use Rattle.routes.specs.Settling.{relaxed_by};
ghost use Rattle.waiting.specs.Waiting.{memory};
ghost use Rattle.squares.specs.Meaning.{network_of};
ghost use Rattle.squares.specs.Known.{Short, costs_in, with_offer};
ghost use Rattle.squares.specs.Found.{Searched};
ghost use Rattle.squares.specs.Sequences.{items};
ghost use Rattle.search.specs.Steps.{CanGoOn, Ready, Step, Marked};

use costs::Cost;
use entries::Entry;
use masks::{has, with};
pub use squares::{Found, found};
use squares::{LinkCosts, Sequence};
use waiting::Waiting;

// A cost joined with that of a link, if there is one.
// kept: `onward` of the crate settling joins two costs that may both be absent; here the first is there, and the call says so.
#[tactic(auto, unfolding(routes::specs::Leasts::joined))]
fn further<C: Cost>(cost: C, link: Option<C>) -> Option<C>
    requires { CanGoOn C.Cost.costs cost link }
    ensures { result ≡ joined C.Cost.costs (Some cost) link }
{
    Some(cost.join(link?))
}

// Offers a cost to a router, which takes it and waits at it where it had none or a higher one.
// It answers the routers with a cost.
// kept: these are a mask beside `best`, since the handed memory is of plain costs: no heap, fixed memory. A `Row` of settling is no
// plainer here: what the memory holds for a router without a route is part of what the search promises, so its steps (`Step`) name
// the memory and the mask apart.
fn offer<C: Cost>(
    best: &mut [C],
    known: u32,
    list: &mut Waiting<Entry<C>>,
    to: usize,
    offered: Option<C>,
) -> u32
    requires places { (to < length best.old) × (to < 32) }
    requires room { list.old.len < length (memory list.old) }
    ensures { Step C.Cost.costs (with_offer C.Cost.costs (costs_in C.Cost.costs best.old known) to offered) (to + 1) 1 best.old known list.old best.new result list.new }
{
    let Some(cost) = offered else {
        return known;
    };
    if has(known, to) && !cost.lower(best[to]) {
        return known;
    }
    best[to] = cost;
    let _ = list.push(Entry { cost, router: to });
    with(known, to)
}

// Relaxes the links of a router whose cost is known: each router is offered the way over it.
fn relax<C: Cost, L: LinkCosts<C>>(
    links: &L,
    from: usize,
    cost: C,
    best: &mut [C],
    mut known: u32,
    list: &mut Waiting<Entry<C>>,
) -> u32
    requires inside { (from < L.LinkCosts.routers links.now) × (L.LinkCosts.routers links.now ≤ length best.old) }
    requires short { Short C.Cost.costs cost }
    requires room { list.old.len + L.LinkCosts.routers links.now ≤ length (memory list.old) }
    ensures { Step C.Cost.costs (relaxed_by (network_of C.Cost.costs L.LinkCosts links.now) (costs_in C.Cost.costs best.old known) from cost) (L.LinkCosts.routers links.now) (L.LinkCosts.routers links.now) best.old known list.old best.new result list.new }
{
    for to in 0..links.count() {
        let way = further(cost, links.link(from, to));
        known = offer(best, known, list, to, way);
    }
    known
}

// Marks a router as done.
fn mark(done: &mut Found, router: usize)
    requires { (router < 32) × (length (items done.old.order) < 32) }
    ensures { Marked router done.old done.new }
{
    done.order.push(router as u8);
    done.known = with(done.known, router);
}

// The best costs from the root, in `best`. The nearest router that waits is done next, so that its
// cost is final; a router that lowered its cost while it waited comes out again, and is passed over.
// At the end the routers that are done are those with a route.
pub fn search<C: Cost, L: LinkCosts<C>>(
    links: &L,
    root: usize,
    best: &mut [C],
    waiting: &mut [Entry<C>],
) -> Found
    requires { Ready (network_of C.Cost.costs L.LinkCosts links.now) root best.old waiting.old }
    ensures { Searched (network_of C.Cost.costs L.LinkCosts links.now) root best.old best.new result }
{
    best[..links.count()].fill_with(|| C::zero());
    let mut list = Waiting::new(waiting);
    let mut known = offer(best, 0, &mut list, root, Some(C::zero()));
    let mut done = Found {
        known: 0,
        order: Sequence::new(),
    };
    while let Some(entry) = list.pop() {
        if !has(done.known, entry.router) {
            mark(&mut done, entry.router);
            known = relax(links, entry.router, entry.cost, best, known, &mut list);
        }
    }
    done
}
