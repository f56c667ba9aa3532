// One root settled: best costs, the tree, rest costs and the sets of hops, for every cost rule.
#![tactic(auto)]

ghost use Rattle.std.specs.Prelude.{◌≡◌, ℕ, ◌*◌, ◌<◌, ◌≤◌, false, map, length, is_some, Some, None, slice_index_or};
ghost use Rattle.std.specs.List.{range_with_len};
ghost use Rattle.masks.specs.Sets.{holds, mask};
ghost use Rattle.settling.specs.Costs.{costs_of, SameMemory};
ghost use Rattle.settling.specs.Rows.{TreeKnown, HopsKnown};
ghost use Rattle.routes.specs.Transverse.{rest as rest_cost, valid as is_valid};
ghost use Rattle.routes.specs.Tree.{lowest_father};
ghost use Rattle.squares.specs.Found.{best_memory, Searched};
ghost use Rattle.squares.specs.Known.{costs_in};
ghost use Rattle.squares.specs.Meaning.{network_of};
ghost use Rattle.page_settling.specs.Hops.{sets_below, set_with, cost_held, is_nearer};
ghost use Rattle.page_settling.specs.Settled.{page_kept, rest_memory, rest_row, Answers, CanSettle};

use costs::Cost;
use entries::Entry;
use masks::{has, with};
use pagetable::Page;
use search::search;
use settling::{Row, Tree, rest_row, tree_of};
use squares::LinkCosts;

mod sets;

use sets::Sets;

// The same routers, as a page keeps them.
// kept: from_fn and the array's map were tried; the check finds no proof that each call of the closure gave the same router
fn narrowed(routers: &[Option<usize>; 32]) -> [Option<u8>; 32]
    requires { (k x : ℕ) → slice_index_or routers.now k None ≡ Some x → x < 256 }
    ensures { result ≡ routers.now }
{
    let mut bytes = [None; 32];
    for d in 0..32 {
        if let Some(x) = routers[d] {
            bytes[d] = Some(x as u8);
        }
    }
    bytes
}

// The rest costs of a router, which the row then holds. A router that is no neighbour has none.
fn rests_of<C: Cost, L: LinkCosts<C>>(links: &L, tree: &Tree, router: usize, row: &mut Row<C>)
    requires inside { (tree.now.root < L.LinkCosts.routers links.now) × (router < L.LinkCosts.routers links.now) × (L.LinkCosts.routers links.now ≤ length row.old.costs.now) }
    requires tree { TreeKnown (network_of C.Cost.costs L.LinkCosts links.now) tree.now }
    requires hops { HopsKnown (network_of C.Cost.costs L.LinkCosts links.now) tree.now }
    ensures costs { (d : ℕ) → d < L.LinkCosts.routers links.now → costs_of C.Cost.costs row.new d ≡ rest_cost (network_of C.Cost.costs L.LinkCosts links.now) (lowest_father (network_of C.Cost.costs L.LinkCosts links.now)) tree.now.root router d }
    ensures past { (d : ℕ) → L.LinkCosts.routers links.now ≤ d → holds row.new.reached d ≡ false }
    ensures memory { SameMemory row.old row.new }
{
    match links.link(tree.root, router) {
        Some(_) => rest_row(links, tree, router, row),
        None => row.reached = 0,
    }
}

// Puts the zero cost to each router that the row has no cost for.
fn clear_others<C: Cost>(row: &mut Row<C>)
    ensures costs { row.new.costs.now ≡ map (cost_held C.Cost.costs row.old.costs.now row.old.reached) (range_with_len 0 (length row.old.costs.now)) }
    ensures reached { row.new.reached ≡ row.old.reached }
    ensures memory { SameMemory row.old row.new }
{
    for (d, cost) in row.costs.iter_mut().enumerate() {
        if !has(row.reached, d) {
            *cost = C::zero();
        }
    }
}

// The row of a router, with its rest costs and the zero cost where there is none.
fn row_of<C: Cost, L: LinkCosts<C>>(links: &L, tree: &Tree, router: usize, row: &mut Row<C>)
    requires inside { (tree.now.root < L.LinkCosts.routers links.now) × (router < L.LinkCosts.routers links.now) × (length row.old.costs.now ≡ L.LinkCosts.routers links.now) }
    requires tree { TreeKnown (network_of C.Cost.costs L.LinkCosts links.now) tree.now }
    requires hops { HopsKnown (network_of C.Cost.costs L.LinkCosts links.now) tree.now }
    ensures row { row.new.costs.now ≡ rest_row (network_of C.Cost.costs L.LinkCosts links.now) tree.now.root router }
    ensures costs { (d : ℕ) → d < L.LinkCosts.routers links.now → costs_of C.Cost.costs row.new d ≡ rest_cost (network_of C.Cost.costs L.LinkCosts links.now) (lowest_father (network_of C.Cost.costs L.LinkCosts links.now)) tree.now.root router d }
    ensures past { (d : ℕ) → L.LinkCosts.routers links.now ≤ d → holds row.new.reached d ≡ false }
    ensures memory { SameMemory row.old row.new }
{
    rests_of(links, tree, router, row);
    clear_others(row);
}

// Whether the row's cost to a router is strictly below the best.
#[tactic(auto, unfolding(routes::specs::Leasts::below))]
fn is_nearer<C: Cost>(row: &Row<C>, best: &[C], known: u32, router: usize) -> bool
    requires { (router < length row.now.costs.now) × (router < length best.now) }
    ensures { result ≡ is_nearer C.Cost.costs row.now.costs.now row.now.reached best.now known router }
{
    has(row.reached, router) && has(known, router) && row.costs[router].lower(best[router])
}

// The routers to which the row's cost is strictly below the best.
fn nearer<C: Cost>(count: usize, row: &Row<C>, best: &[C], known: u32) -> u32
    requires { (count ≤ 32) × (count ≤ length row.now.costs.now) × (count ≤ length best.now) }
    ensures { result ≡ mask count (is_nearer C.Cost.costs row.now.costs.now row.now.reached best.now known) }
{
    let mut set = 0;
    for d in 0..count {
        if is_nearer(row, best, known, d) {
            set = with(set, d);
        }
    }
    set
}

// Writes the row of a router to a memory. It answers the routers that it has a rest cost to, and those of them to which this is
// strictly below the best. The `Row` is made here and not in hop_sets: what it leaves in a handed memory is known after it, and
// what it leaves in a part of one is not.
fn reach_of<C: Cost, L: LinkCosts<C>>(
    links: &L,
    tree: &Tree,
    best: &[C],
    router: usize,
    costs: &mut [C],
) -> (u32, u32)
    requires inside { (tree.now.root < L.LinkCosts.routers links.now) × (router < L.LinkCosts.routers links.now) × (length costs.old ≡ L.LinkCosts.routers links.now) }
    requires best { L.LinkCosts.routers links.now ≤ length best.now }
    requires tree { TreeKnown (network_of C.Cost.costs L.LinkCosts links.now) tree.now }
    requires hops { HopsKnown (network_of C.Cost.costs L.LinkCosts links.now) tree.now }
    ensures row { costs.new ≡ rest_row (network_of C.Cost.costs L.LinkCosts links.now) tree.now.root router }
    ensures rests { (d : ℕ) → d < L.LinkCosts.routers links.now → costs_in C.Cost.costs costs.new result.0 d ≡ rest_cost (network_of C.Cost.costs L.LinkCosts links.now) (lowest_father (network_of C.Cost.costs L.LinkCosts links.now)) tree.now.root router d }
    ensures past { (d : ℕ) → L.LinkCosts.routers links.now ≤ d → holds result.0 d ≡ false }
    ensures near { result.1 ≡ mask (L.LinkCosts.routers links.now) (is_nearer C.Cost.costs costs.new result.0 best.now tree.now.found.known) }
{
    let mut row = Row { costs, reached: 0 };
    row_of(links, tree, router, &mut row);
    let near = nearer(links.count(), &row, best, tree.found.known);
    (row.reached, near)
}

// Adds a hop to the set of each router that is chosen, of so many routers.
fn add_hop(sets: &mut [u32; 32], count: usize, chosen: u32, hop: usize)
    requires { count ≤ 32 }
    ensures { sets.new ≡ map (set_with count chosen hop sets.old) (range_with_len 0 32) }
{
    for (d, set) in sets[..count].iter_mut().enumerate() {
        if has(chosen, d) {
            *set = with(*set, hop);
        }
    }
}

// The sets of hops by the rest costs, which it leaves in the handed memory.
// kept: the rows by chunks_exact_mut were tried; the check found no proof of the length that row_of and reach_of ask of a row
fn hop_sets<C: Cost, L: LinkCosts<C>>(links: &L, tree: &Tree, best: &[C], rest: &mut [C]) -> Sets
    requires inside { (tree.now.root < L.LinkCosts.routers links.now) × (L.LinkCosts.routers links.now * L.LinkCosts.routers links.now ≤ length rest.old) }
    requires left { Searched (network_of C.Cost.costs L.LinkCosts links.now) tree.now.root best.now best.now tree.now.found }
    requires tree { TreeKnown (network_of C.Cost.costs L.LinkCosts links.now) tree.now }
    requires hops { HopsKnown (network_of C.Cost.costs L.LinkCosts links.now) tree.now }
    ensures candidates { result.candidates ≡ sets_below (L.LinkCosts.routers links.now) (λ v d. is_some (rest_cost (network_of C.Cost.costs L.LinkCosts links.now) (lowest_father (network_of C.Cost.costs L.LinkCosts links.now)) tree.now.root v d)) }
    ensures valid { result.valid ≡ sets_below (L.LinkCosts.routers links.now) (is_valid (network_of C.Cost.costs L.LinkCosts links.now) (lowest_father (network_of C.Cost.costs L.LinkCosts links.now)) tree.now.root) }
    ensures rest { rest.new ≡ rest_memory (network_of C.Cost.costs L.LinkCosts links.now) tree.now.root rest.old }
{
    let count = links.count();
    let mut candidates = [0; 32];
    let mut valid = [0; 32];
    for v in 0..count {
        let costs = &mut rest[v * count..(v + 1) * count];
        let (reached, near) = reach_of(links, tree, best, v, costs);
        add_hop(&mut candidates, count, reached, v);
        add_hop(&mut valid, count, near, v);
    }
    Sets { candidates, valid }
}

// Works out the page of a root from the links. It leaves the best costs and the rest costs in the handed memories.
pub fn settle<C: Cost, L: LinkCosts<C>>(
    links: &L,
    root: usize,
    best: &mut [C],
    rest: &mut [C],
    waiting: &mut [Entry<C>],
) -> Page
    requires { CanSettle (network_of C.Cost.costs L.LinkCosts links.now) root best.old rest.old waiting.old }
    ensures page { result ≡ page_kept (network_of C.Cost.costs L.LinkCosts links.now) root }
    ensures answers { Answers (network_of C.Cost.costs L.LinkCosts links.now) root result }
    ensures best { best.new ≡ best_memory (network_of C.Cost.costs L.LinkCosts links.now) root best.old }
    ensures rest { rest.new ≡ rest_memory (network_of C.Cost.costs L.LinkCosts links.now) root rest.old }
{
    let found = search(links, root, best, waiting);
    let tree = tree_of(links, root, best, found);
    let sets = hop_sets(links, &tree, best, rest);
    let father = narrowed(&tree.father);
    let hop = narrowed(&tree.hop);
    // kept: an array of another struct goes into a literal by a name, as the borrow checker does not cover it in place
    let candidates = sets.candidates;
    let valid = sets.valid;
    Page {
        father,
        hop,
        candidates,
        valid,
    }
}
