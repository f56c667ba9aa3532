// Routes over links of any cost rule, and the hops that a router may pick. Each function states one theorem.
#![tactic(auto)]

ghost use Rattle.routes.specs.NetK.{NetK, RulesOrder, EqualRestCost, ClimbingThroughRoot};
ghost use Rattle.routes.specs.Theorems.{StandingIsSound, StandingIsTwoWay, BestIsLeast, RoutesAreShort, LowestFatherChooses, FatherIsLowest, TreeStands, PathStands, RestIsLeast, TreeHopIsValid, TransverseRoutesAvoid, ValidIsNearer, SecondCandidate, NothingWithoutRoute, SetsAreMasks, OwnFathersMatter, HopsArrive, EveryPickArrives, WalkArrives, RelaxedIsBest, SettlingSteps, PassesSolve, ClimbingSteps, WholeCostNeverBelow};

// The network of a kept map is sound.
#[tactic(auto, using(crate::proofs::Theorems::standing_is_sound_lem))]
pub fn standing_is_sound<C>()
    ensures { StandingIsSound C }
{}

// Where the rule reads every number that is kept, each link has one back.
#[tactic(auto, using(crate::proofs::Theorems::standing_is_two_way_lem))]
pub fn standing_is_two_way<C>()
    ensures { StandingIsTwoWay C }
{}

// The best cost is the least over all routes of at most 99 links.
#[tactic(auto, using(crate::proofs::Theorems::best_is_least_lem))]
pub fn best_is_least<C>()
    ensures { BestIsLeast C }
{}

// Each route has one that is no dearer, with fewer links than there are routers.
#[tactic(auto, using(crate::proofs::Theorems::routes_are_short_lem))]
pub fn routes_are_short<C>()
    ensures { RoutesAreShort C }
{}

// To take the lowest possible father is to choose.
#[tactic(auto, using(crate::proofs::Theorems::lowest_father_chooses_lem))]
pub fn lowest_father_chooses<C>()
    ensures { LowestFatherChooses C }
{}

// No possible father is lower than the lowest father.
pub fn father_is_lowest<C>()
    ensures { FatherIsLowest C }
{}

// Each router with a route, but the root, has a father, a tree path and a tree hop.
#[tactic(auto, using(crate::proofs::Theorems::tree_stands_lem))]
pub fn tree_stands<C>()
    ensures { TreeStands C }
{}

// The tree path begins with the root and the tree hop, and has at most count routers.
pub fn path_stands<C>()
    ensures { PathStands C }
{}

// The rest cost is the least over the transverse routes.
#[tactic(auto, using(crate::proofs::Theorems::rest_is_least_lem))]
pub fn rest_is_least<C>()
    ensures { RestIsLeast C }
{}

// The tree hop is valid, and its rest cost is that of the rest of the tree path.
pub fn tree_hop_is_valid<C>()
    ensures { TreeHopIsValid C }
{}

// A transverse route is a route of at most 98 links that never meets the root.
#[tactic(auto, using(crate::proofs::Theorems::transverse_routes_avoid_lem))]
pub fn transverse_routes_avoid<C>()
    ensures { TransverseRoutesAvoid C }
{}

// The best cost from a valid hop is strictly below that from the root.
#[tactic(auto, using(crate::proofs::Theorems::valid_is_nearer_lem))]
pub fn valid_is_nearer<C>()
    ensures { ValidIsNearer C }
{}

// A candidate besides the tree hop is there exactly where a route leaves another way.
#[tactic(auto, using(crate::proofs::Theorems::second_candidate_lem))]
pub fn second_candidate<C>()
    ensures { SecondCandidate C }
{}

// Without a route there is no hop.
pub fn nothing_without_route<C>()
    ensures { NothingWithoutRoute C }
{}

// The sets of a page are 32-bit masks.
pub fn sets_are_masks<C>()
    ensures { SetsAreMasks C }
{}

// A page depends on the fathers of its own root only.
pub fn own_fathers_matter<C>()
    ensures { OwnFathersMatter C }
{}

// Valid hops, whichever are picked, are fewer than the routers and never end short of the destination.
#[tactic(auto, using(crate::proofs::Theorems::hops_arrive_lem))]
pub fn hops_arrive<C>()
    ensures { HopsArrive C }
{}

// Whichever valid hop is picked each time, the destination is reached within count - 1 hops.
#[tactic(auto, using(crate::proofs::Theorems::every_pick_arrives_lem))]
pub fn every_pick_arrives<C>()
    ensures { EveryPickArrives C }
{}

// A walk with count - 1 picks ends at its destination.
pub fn walk_arrives<C>()
    ensures { WalkArrives C }
{}

// Costs that no link changes any more are the best costs.
pub fn relaxed_is_best<C>()
    ensures { RelaxedIsBest C }
{}

// Settling the nearest router first comes to the best costs.
pub fn settling_steps<C>()
    ensures { SettlingSteps C }
{}

// A pass of climbing and one of descending give the rest costs, and nothing else solves their equations.
#[tactic(auto, using(crate::proofs::Theorems::passes_solve_lem))]
pub fn passes_solve<C>()
    ensures { PassesSolve C }
{}

// Climbing router by router, each after its children, comes to the costs of the best climbs.
pub fn climbing_steps<C>()
    ensures { ClimbingSteps C }
{}

// A candidate's whole cost is never below the best cost.
#[tactic(auto, using(crate::proofs::Theorems::whole_cost_never_below_lem))]
pub fn whole_cost_never_below<C>()
    ensures { WholeCostNeverBelow C }
{}

// What the pages of Net K hold.
#[tactic(auto, using(crate::proofs::NetK::net_K))]
pub fn net_k()
    ensures { NetK }
{}

// Which cost each rule takes for lower.
#[tactic(auto, using(crate::proofs::NetK::rules_order_lem))]
pub fn rules_order()
    ensures { RulesOrder }
{}

// With an equal rest cost allowed, two pages would pass a packet back and forth.
#[tactic(auto, using(crate::proofs::NetK::equal_rest_cost_lem))]
pub fn equal_rest_cost()
    ensures { EqualRestCost }
{}

// With climbs to the root allowed, a way back through the root would give a candidate.
#[tactic(auto, using(crate::proofs::NetK::climbing_through_root_lem))]
pub fn climbing_through_root()
    ensures { ClimbingThroughRoot }
{}
