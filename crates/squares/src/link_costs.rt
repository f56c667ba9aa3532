ghost use Rattle.std.specs.Prelude.{◌≡◌, ℕ, ◌<◌, Option};
ghost use Rattle.routes.specs.Network.{Sound};
ghost use Rattle.squares.specs.Networks.{network};

use costs::Cost;

// The costs of the links between routers, by the rule `C`: all that a search and its passes need to know of an area.
// How a link is kept and read is the business of each `impl`.
pub trait LinkCosts<C: Cost> {
    ghost routers: { Self → ℕ };

    ghost costs: { Self → ℕ → ℕ → Option C };

    // How many routers there are.
    fn count(&self) -> usize
        ensures { result ≡ routers self.now };

    // The cost of the link from one router to another, if there is one.
    fn link(&self, from: usize, to: usize) -> Option<C>
        requires { (from < routers self.now) × (to < routers self.now) }
        ensures { result ≡ costs self.now from to };

    // There are at most 32 routers, and links lie between two different ones, at a link's cost: each `impl` proves it.
    ghost sound: { (links : Self) → Sound (network C.Cost.costs routers costs links) };
}
