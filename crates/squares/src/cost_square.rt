ghost use Rattle.std.specs.Prelude.{◌≡◌, ◌*◌, ◌<◌, ◌≤◌, length, None, slice_index_or};
ghost use Rattle.squares.specs.Squares.{EachRead, Square, matrix, matrix_sound};

use crate::link_costs::LinkCosts;
use costs::Cost;

// A square of link costs: that from one router to another at place from * count + to. What stands at the places of a router and
// itself does not count.
// kept: a count beside the places, since the caller hands them and they may be more; and a square like that of numbers, since the
// two differ in what a place says of a link, which is what the trait is for.
#[derive(Drop)]
pub struct CostSquare<'a, C: Cost> {
    places: &'a [Option<C>],
    count: usize,
    ghost few: { count ≤ 32 },
    ghost full: { count * count ≤ length places.now },
    // the numbers that they are read from are no part of the square
    ghost link_costs: { ∥ EachRead C.Cost.costs (λ i. slice_index_or places.now i None) ∥₁ },
}

impl<'a, C: Cost> CostSquare<'a, C> {
    // The square of so many routers at the front of the places.
    pub fn new(places: &'a [Option<C>], count: usize) -> CostSquare<'a, C>
        requires { Square C.Cost.costs places.now count }
        ensures places { result.places.now ≡ places.now }
        ensures count { result.count ≡ count }
    {
        CostSquare { places, count }
    }
}

impl<'a, C: Cost> LinkCosts<C> for CostSquare<'a, C> {
    ghost routers = { λ s. s.count };

    ghost costs = { λ s. (matrix C.Cost.costs s.count s.places.now).link };

    ghost sound = { λ s. matrix_sound C.Cost.costs C.Cost.lawful s.places.now s.count s.few s.link_costs };

    fn count(&self) -> usize {
        self.count
    }

    fn link(&self, from: usize, to: usize) -> Option<C> {
        if from == to {
            return None;
        }
        cost_at(self.places, from * self.count + to)
    }
}

// What stands at a place. At a field of a generic element type nothing says that the place's offset fits; at a parameter it is known.
fn cost_at<C: Cost>(places: &[Option<C>], place: usize) -> Option<C>
    requires { place < length places.now }
    ensures { result ≡ slice_index_or places.now place None }
{
    places[place]
}
