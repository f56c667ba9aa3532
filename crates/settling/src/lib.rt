// The page of one root, worked out from the best costs that a search left: fathers, tree hops, and the passes of the rest costs.
#![tactic(auto)]

ghost use Rattle.std.specs.Prelude.{◌≡◌, ℕ, ◌<◌, ◌≤◌, true, ◌≢◌, map, length, get_or, is_some, Some, None, Option, slice_index_or};
ghost use Rattle.std.specs.List.{range_with_len};
ghost use Rattle.routes.specs.Leasts.{joined, same};
ghost use Rattle.routes.specs.Settling.{started, climbed};
ghost use Rattle.routes.specs.Transverse.{rest};
ghost use Rattle.routes.specs.Tree.{lowest_father, fall};
ghost use Rattle.squares.specs.Found.{Searched};
ghost use Rattle.squares.specs.Sequences.{items};
ghost use Rattle.squares.specs.Meaning.{network_of};
ghost use Rattle.squares.specs.Known.{costs_in, with_offer};
ghost use Rattle.settling.specs.Costs.{costs_of, SameMemory};
ghost use Rattle.settling.specs.Trees.{CanJoin, Shorts, passes, father_by, hop_by, Hops, FathersFirst};
ghost use Rattle.settling.specs.Rows.{own_cost, ByFather, ToFather, TreeKnown, HopsKnown, by_father, to_father};

use costs::Cost;
use masks::has;
use squares::{Found, LinkCosts};

pub mod row;
mod starts;
pub mod tree;

pub use row::Row;
pub use starts::rest_row;
pub use tree::Tree;

// The cost that a memory holds for a router of the mask.
// kept: best costs that are only read and their mask, `known` of what the search found, are two parameters, here and in the crate
// page_settling. A `Row` holds a `&mut`, which nobody has here, and a second struct would be its twin for a `&`.
pub(crate) fn cost_of<C: Cost>(best: &[C], known: u32, router: usize) -> Option<C>
    requires { router < length best.now }
    ensures { result ≡ costs_in C.Cost.costs best.now known router }
{
    has(known, router).then_some(best[router])
}

// Two costs joined, where both are there.
#[tactic(auto, unfolding(routes::specs::Leasts::joined))]
pub(crate) fn onward<C: Cost>(cost: Option<C>, link: Option<C>) -> Option<C>
    requires { CanJoin C.Cost.costs cost link }
    ensures { result ≡ joined C.Cost.costs cost link }
{
    Some(cost?.join(link?))
}

// Whether both costs are there, and neither is lower.
#[tactic(auto, unfolding(routes::specs::Leasts::same))]
fn equal<C: Cost>(a: Option<C>, b: Option<C>) -> bool
    ensures { result ≡ same C.Cost.costs a b }
{
    a.zip(b).is_some_and(|(x, y)| !x.lower(y) && !y.lower(x))
}

// Whether the cost of one router, joined with that of its link to another, is the cost of the other.
fn comes_by<C: Cost, L: LinkCosts<C>>(
    links: &L,
    best: &[C],
    known: u32,
    from: usize,
    to: usize,
) -> bool
    requires inside { (from < L.LinkCosts.routers links.now) × (to < L.LinkCosts.routers links.now) × (L.LinkCosts.routers links.now ≤ length best.now) }
    requires short { Shorts C.Cost.costs (L.LinkCosts.routers links.now) (costs_in C.Cost.costs best.now known) }
    ensures { result ≡ passes (network_of C.Cost.costs L.LinkCosts links.now) (costs_in C.Cost.costs best.now known) to from }
{
    let way = onward(cost_of(best, known, from), links.link(from, to));
    equal(way, cost_of(best, known, to))
}

// The lowest router by which the cost of a router comes.
// kept: `find` over the numbers was tried; from what it ensures the check finds no proof that no number before passed
fn father_of<C: Cost, L: LinkCosts<C>>(
    links: &L,
    best: &[C],
    known: u32,
    router: usize,
) -> Option<usize>
    requires inside { (router < L.LinkCosts.routers links.now) × (L.LinkCosts.routers links.now ≤ length best.now) }
    requires short { Shorts C.Cost.costs (L.LinkCosts.routers links.now) (costs_in C.Cost.costs best.now known) }
    ensures { result ≡ father_by (network_of C.Cost.costs L.LinkCosts links.now) (costs_in C.Cost.costs best.now known) router }
{
    for from in 0..links.count() {
        if comes_by(links, best, known, from, router) {
            return Some(from);
        }
    }
    None
}

// The father of each router on the page of the root, by what a search from there left: of the possible ones the lowest.
pub fn fathers<C: Cost, L: LinkCosts<C>>(
    links: &L,
    root: usize,
    best: &[C],
    found: &Found,
) -> [Option<usize>; 32]
    requires left { Searched (network_of C.Cost.costs L.LinkCosts links.now) root best.now best.now found.now }
    ensures { result ≡ map (lowest_father (network_of C.Cost.costs L.LinkCosts links.now) root) (range_with_len 0 32) }
{
    let mut fathers = [None; 32];
    for (d, father) in fathers[..links.count()].iter_mut().enumerate() {
        *father = father_of(links, best, found.known, d);
    }
    fathers
}

// The tree hop of a router, by its father and that one's tree hop.
fn hop_of(
    fathers: &[Option<usize>; 32],
    hops: &[Option<usize>; 32],
    root: usize,
    router: usize,
) -> Option<usize>
    requires { (router < 32) × ((x : ℕ) → slice_index_or fathers.now router None ≡ Some x → x < 32) }
    ensures { result ≡ hop_by fathers.now root (λ x. get_or hops.now x None) router }
{
    let x = fathers[router]?;
    if x == root {
        return Some(router);
    }
    hops[x]
}

// The tree hop of each router, along an order in which fathers stand before their children.
pub fn tree_hops(fathers: &[Option<usize>; 32], root: usize, found: &Found) -> [Option<usize>; 32]
    requires { FathersFirst fathers.now root (items found.now.order) }
    ensures { (h : ℕ → Option ℕ) → Hops fathers.now root h → result ≡ map h (range_with_len 0 32) }
{
    let mut hops = [None; 32];
    for &router in found.order.as_slice() {
        let d = usize::from(router);
        hops[d] = hop_of(fathers, &hops, root, d);
    }
    hops
}

// The fathers and the tree hops on the page of the root, by what a search from there left.
pub fn tree_of<C: Cost, L: LinkCosts<C>>(links: &L, root: usize, best: &[C], found: Found) -> Tree
    requires left { Searched (network_of C.Cost.costs L.LinkCosts links.now) root best.now best.now found }
    ensures root { result.root ≡ root }
    ensures found { result.found ≡ found }
    ensures tree { TreeKnown (network_of C.Cost.costs L.LinkCosts links.now) result }
    ensures hops { HopsKnown (network_of C.Cost.costs L.LinkCosts links.now) result }
{
    let father = fathers(links, root, best, &found);
    let hop = tree_hops(&father, root, &found);
    Tree {
        root,
        found,
        father,
        hop,
    }
}

// The cost that the way down from its father gives a router.
fn way_down<C: Cost, L: LinkCosts<C>>(links: &L, tree: &Tree, row: &Row<C>, to: usize) -> Option<C>
    requires inside { (to < L.LinkCosts.routers links.now) × (L.LinkCosts.routers links.now ≤ length row.now.costs.now) }
    requires father { ByFather (network_of C.Cost.costs L.LinkCosts links.now) tree.now.father (costs_of C.Cost.costs row.now) to }
    ensures { result ≡ by_father (network_of C.Cost.costs L.LinkCosts links.now) (slice_index_or tree.now.father to None) (costs_of C.Cost.costs row.now) to }
{
    let p = tree.father[to]?;
    onward(row.get(p), links.link(p, to))
}

// The descending pass of the rest costs of a neighbour, along the sequence: from the costs of the best climbs to the rest costs.
pub fn descend<C: Cost, L: LinkCosts<C>>(links: &L, tree: &Tree, neighbour: usize, row: &mut Row<C>)
    requires places { L.LinkCosts.routers links.now ≤ length row.old.costs.now }
    requires tree { TreeKnown (network_of C.Cost.costs L.LinkCosts links.now) tree.now }
    requires climbs { (d : ℕ) → d < L.LinkCosts.routers links.now → costs_of C.Cost.costs row.old d ≡ climbed (network_of C.Cost.costs L.LinkCosts links.now) (lowest_father (network_of C.Cost.costs L.LinkCosts links.now)) tree.now.root neighbour d }
    ensures costs { (d : ℕ) → d < L.LinkCosts.routers links.now → costs_of C.Cost.costs row.new d ≡ rest (network_of C.Cost.costs L.LinkCosts links.now) (lowest_father (network_of C.Cost.costs L.LinkCosts links.now)) tree.now.root neighbour d }
    ensures past { (d : ℕ) → L.LinkCosts.routers links.now ≤ d → costs_of C.Cost.costs row.new d ≡ costs_of C.Cost.costs row.old d }
    ensures memory { SameMemory row.old row.new }
{
    for &router in tree.found.order.as_slice() {
        let to = usize::from(router);
        let way = way_down(links, tree, row, to);
        row.offer(to, way);
    }
}

// Offers the father of a router the way up from it, but never the root.
fn climb_from<C: Cost, L: LinkCosts<C>>(links: &L, tree: &Tree, row: &mut Row<C>, from: usize)
    requires inside { (from < L.LinkCosts.routers links.now) × (L.LinkCosts.routers links.now ≤ length row.old.costs.now) }
    requires father { ToFather (network_of C.Cost.costs L.LinkCosts links.now) tree.now.father (costs_of C.Cost.costs row.old) from }
    ensures costs { (d : ℕ) → costs_of C.Cost.costs row.new d ≡ to_father (network_of C.Cost.costs L.LinkCosts links.now) tree.now.root (slice_index_or tree.now.father from None) (costs_of C.Cost.costs row.old) from d }
    ensures memory { SameMemory row.old row.new }
{
    let Some(p) = tree.father[from] else {
        return;
    };
    if p == tree.root {
        return;
    }
    let way = onward(row.get(from), links.link(from, p));
    row.offer(p, way);
}

// The climbing pass of the rest costs of a neighbour, against the sequence: from the costs of its starts to those of the best climbs.
pub fn climb<C: Cost, L: LinkCosts<C>>(links: &L, tree: &Tree, neighbour: usize, row: &mut Row<C>)
    requires places { L.LinkCosts.routers links.now ≤ length row.old.costs.now }
    requires tree { TreeKnown (network_of C.Cost.costs L.LinkCosts links.now) tree.now }
    requires starts { (d : ℕ) → costs_of C.Cost.costs row.old d ≡ started (network_of C.Cost.costs L.LinkCosts links.now) (lowest_father (network_of C.Cost.costs L.LinkCosts links.now)) tree.now.root neighbour d }
    ensures costs { (d : ℕ) → costs_of C.Cost.costs row.new d ≡ climbed (network_of C.Cost.costs L.LinkCosts links.now) (lowest_father (network_of C.Cost.costs L.LinkCosts links.now)) tree.now.root neighbour d }
    ensures memory { SameMemory row.old row.new }
{
    for &router in tree.found.order.as_slice().iter().rev() {
        let from = usize::from(router);
        climb_from(links, tree, row, from);
    }
}

// The cost of the tree path from the neighbour down to a router, by that of its father.
fn own_cost<C: Cost, L: LinkCosts<C>>(
    links: &L,
    tree: &Tree,
    neighbour: usize,
    row: &Row<C>,
    at: usize,
) -> Option<C>
    requires inside { (at < L.LinkCosts.routers links.now) × (L.LinkCosts.routers links.now ≤ length row.now.costs.now) }
    requires father { ByFather (network_of C.Cost.costs L.LinkCosts links.now) tree.now.father (costs_of C.Cost.costs row.now) at }
    ensures { result ≡ own_cost (network_of C.Cost.costs L.LinkCosts links.now) neighbour (slice_index_or tree.now.father at None) (costs_of C.Cost.costs row.now) at }
{
    if neighbour == at {
        return Some(C::zero());
    }
    way_down(links, tree, row, at)
}

// The costs of the tree paths from a neighbour down to each router, along the sequence.
// kept: `descend` has the same loop with another offer. One function of both would take the offer as a closure whose trait names
// its meaning, or start here from the zero cost at the neighbour and promise every solution of the offers' equation. Either asks a
// definition more than the four lines of the loop, and the two still end in different costs, each by its own proof.
pub fn own_branch<C: Cost, L: LinkCosts<C>>(
    links: &L,
    tree: &Tree,
    neighbour: usize,
    row: &mut Row<C>,
)
    requires places { L.LinkCosts.routers links.now ≤ length row.old.costs.now }
    requires tree { TreeKnown (network_of C.Cost.costs L.LinkCosts links.now) tree.now }
    requires linked { is_some ((network_of C.Cost.costs L.LinkCosts links.now).link tree.now.root neighbour) ≡ true }
    ensures costs { (d : ℕ) → d < L.LinkCosts.routers links.now → costs_of C.Cost.costs row.new d ≡ fall (network_of C.Cost.costs L.LinkCosts links.now) (lowest_father (network_of C.Cost.costs L.LinkCosts links.now)) tree.now.root neighbour d }
    ensures memory { SameMemory row.old row.new }
{
    row.reached = 0;
    for &router in tree.found.order.as_slice() {
        let to = usize::from(router);
        let cost = own_cost(links, tree, neighbour, row, to);
        row.offer(to, cost);
    }
}
