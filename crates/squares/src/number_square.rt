ghost use Rattle.std.specs.Prelude.{◌≡◌};
ghost use Rattle.squares.specs.Numbers.{NumberSquare as Square, number_matrix, numbers_sound};

use crate::link_costs::LinkCosts;
use costs::Cost;

// A square of link numbers: that from one router to another at place from * count + to, and 0 where there is no link. The rule
// reads them.
// kept: a count beside the places, since the caller hands them and they may be more.
#[derive(Drop)]
pub struct NumberSquare<'a> {
    places: &'a [u32],
    count: usize,
    ghost fits: { Square places.now count },
}

impl<'a> NumberSquare<'a> {
    // The square of so many routers at the front of the places.
    pub fn new(places: &'a [u32], count: usize) -> NumberSquare<'a>
        requires { Square places.now count }
        ensures places { result.places.now ≡ places.now }
        ensures count { result.count ≡ count }
    {
        NumberSquare { places, count }
    }
}

impl<'a, C: Cost> LinkCosts<C> for NumberSquare<'a> {
    ghost routers = { λ s. s.count };

    ghost costs = { λ s. (number_matrix C.Cost.costs s.count s.places.now).link };

    ghost sound = { λ s. numbers_sound C.Cost.costs s.places.now s.count C.Cost.lawful s.fits };

    fn count(&self) -> usize {
        self.count
    }

    fn link(&self, from: usize, to: usize) -> Option<C> {
        if from == to {
            return None;
        }
        C::read(self.places[from * self.count + to])
    }
}
