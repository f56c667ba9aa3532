// The starts of a neighbour of the root, and the whole row of its rest costs.
ghost use Rattle.std.specs.Prelude.{◌≡◌, ℕ, ◌<◌, ◌≤◌, true, false, length, is_some, None, slice_index_or};
ghost use Rattle.masks.specs.Sets.{holds};
ghost use Rattle.routes.specs.Leasts.{lesser};
ghost use Rattle.routes.specs.Settling.{started};
ghost use Rattle.routes.specs.Transverse.{rest};
ghost use Rattle.routes.specs.Tree.{lowest_father, fall};
ghost use Rattle.squares.specs.Meaning.{network_of};
ghost use Rattle.squares.specs.Known.{costs_in, with_offer};
ghost use Rattle.settling.specs.Costs.{costs_of, SameMemory};
ghost use Rattle.settling.specs.Trees.{CanJoin};
ghost use Rattle.settling.specs.Rows.{TreeKnown, HopsKnown, other_hop, crossing};

use crate::tree::Tree;
use crate::{Row, climb, descend, onward, own_branch};
use costs::Cost;
use masks::with;
use squares::LinkCosts;

// Offers a router the way over the link from a router of the neighbour's branch, where its own branch is another.
fn start_at<C: Cost, L: LinkCosts<C>>(
    links: &L,
    tree: &Tree,
    neighbour: usize,
    from: usize,
    cost: Option<C>,
    row: &mut Row<C>,
    to: usize,
)
    requires inside { (from < L.LinkCosts.routers links.now) × (to < L.LinkCosts.routers links.now) × (L.LinkCosts.routers links.now ≤ length row.old.costs.now) }
    requires joins { CanJoin C.Cost.costs cost ((network_of C.Cost.costs L.LinkCosts links.now).link from to) }
    ensures costs { (d : ℕ) → costs_of C.Cost.costs row.new d ≡ with_offer C.Cost.costs (costs_of C.Cost.costs row.old) to (crossing (network_of C.Cost.costs L.LinkCosts links.now) neighbour (slice_index_or tree.now.hop to None) from cost to) d }
    ensures kept { (k : ℕ) → other_hop neighbour (slice_index_or tree.now.hop k None) ≡ false → slice_index_or row.new.costs.now k C.Cost.costs.zero ≡ slice_index_or row.old.costs.now k C.Cost.costs.zero }
    ensures memory { SameMemory row.old row.new }
{
    if tree.in_other_branch(neighbour, to) {
        let way = onward(cost, links.link(from, to));
        row.offer(to, way);
    }
}

// Offers each router the way over the link from a router of the neighbour's branch.
fn start_from<C: Cost, L: LinkCosts<C>>(
    links: &L,
    tree: &Tree,
    neighbour: usize,
    from: usize,
    cost: Option<C>,
    row: &mut Row<C>,
)
    requires inside { (from < L.LinkCosts.routers links.now) × (L.LinkCosts.routers links.now ≤ length row.old.costs.now) }
    requires joins { (y : ℕ) → CanJoin C.Cost.costs cost ((network_of C.Cost.costs L.LinkCosts links.now).link from y) }
    ensures costs { (d : ℕ) → costs_of C.Cost.costs row.new d ≡ lesser C.Cost.costs (costs_of C.Cost.costs row.old d) (crossing (network_of C.Cost.costs L.LinkCosts links.now) neighbour (slice_index_or tree.now.hop d None) from cost d) }
    ensures kept { (k : ℕ) → other_hop neighbour (slice_index_or tree.now.hop k None) ≡ false → slice_index_or row.new.costs.now k C.Cost.costs.zero ≡ slice_index_or row.old.costs.now k C.Cost.costs.zero }
    ensures memory { SameMemory row.old row.new }
{
    for to in 0..links.count() {
        start_at(links, tree, neighbour, from, cost, row, to);
    }
}

// The starts of a neighbour: at itself, and over each link from its branch into another. The row comes with the costs of
// the tree paths down the branch, the zero cost at the neighbour; the starts take the places of other branches.
fn all_starts<C: Cost, L: LinkCosts<C>>(links: &L, tree: &Tree, neighbour: usize, row: &mut Row<C>)
    requires places { L.LinkCosts.routers links.now ≤ length row.old.costs.now }
    requires hops { HopsKnown (network_of C.Cost.costs L.LinkCosts links.now) tree.now }
    requires linked { is_some ((network_of C.Cost.costs L.LinkCosts links.now).link tree.now.root neighbour) ≡ true }
    requires falls { (d : ℕ) → d < L.LinkCosts.routers links.now → costs_of C.Cost.costs row.old d ≡ fall (network_of C.Cost.costs L.LinkCosts links.now) (lowest_father (network_of C.Cost.costs L.LinkCosts links.now)) tree.now.root neighbour d }
    ensures costs { (d : ℕ) → costs_of C.Cost.costs row.new d ≡ started (network_of C.Cost.costs L.LinkCosts links.now) (lowest_father (network_of C.Cost.costs L.LinkCosts links.now)) tree.now.root neighbour d }
    ensures memory { SameMemory row.old row.new }
{
    let below = row.reached;
    row.reached = with(0, neighbour);
    for from in 0..links.count() {
        if tree.in_branch(neighbour, from) {
            let cost = row.among(below, from);
            start_from(links, tree, neighbour, from, cost, row);
        }
    }
}

// The rest costs of a neighbour of the root: they are what the row then holds, in the memory that it had.
pub fn rest_row<C: Cost, L: LinkCosts<C>>(
    links: &L,
    tree: &Tree,
    neighbour: usize,
    row: &mut Row<C>,
)
    requires places { L.LinkCosts.routers links.now ≤ length row.old.costs.now }
    requires tree { TreeKnown (network_of C.Cost.costs L.LinkCosts links.now) tree.now }
    requires hops { HopsKnown (network_of C.Cost.costs L.LinkCosts links.now) tree.now }
    requires linked { is_some ((network_of C.Cost.costs L.LinkCosts links.now).link tree.now.root neighbour) ≡ true }
    ensures costs { (d : ℕ) → d < L.LinkCosts.routers links.now → costs_of C.Cost.costs row.new d ≡ rest (network_of C.Cost.costs L.LinkCosts links.now) (lowest_father (network_of C.Cost.costs L.LinkCosts links.now)) tree.now.root neighbour d }
    ensures past { (d : ℕ) → L.LinkCosts.routers links.now ≤ d → holds row.new.reached d ≡ false }
    ensures memory { SameMemory row.old row.new }
{
    own_branch(links, tree, neighbour, row);
    all_starts(links, tree, neighbour, row);
    climb(links, tree, neighbour, row);
    descend(links, tree, neighbour, row);
}
