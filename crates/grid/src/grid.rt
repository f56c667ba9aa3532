ghost use Rattle.std.specs.Prelude.{◌≡◌, length};
ghost use Rattle.faults.specs.Calls.{in_table, done, answered_by};
ghost use Rattle.grid.specs.Grids.{grid_refusal, emptied, grid_count, grid_empty, grid_table, grid_lawful, with_cell, PlacedIn};
ghost use Rattle.tables.specs.Tables.{Put, Cut, Unchanged};

use faults::{Fault, Refusal};
use tables::{LinkTable, check_making, check_pair};

// A cell for each ordered pair of routers, at from * count + to; 0 means no link.
// kept: 0 and no `Option`, since a rule of the project fixes a cell of 16 bits.
// kept: no invariant ties the count to the cells, since an area on a table with a ghost field was not covered by
// the borrow checker where it is held by value; `routers` makes the meaning total instead.
#[derive(Drop)]
pub struct Grid<'a> {
    cells: &'a mut [u16],
    count: usize,
}

impl<'a> Grid<'a> {
    // Whether a grid of so many routers can be made of so many cells.
    pub fn check(cells: usize, count: usize) -> Result<(), Fault>
        ensures { result ≡ done (in_table (grid_refusal cells count)) }
    {
        check_making(count, cells, count.saturating_mul(count))
    }

    // An empty grid; one of no routers where the check would refuse.
    pub fn make(cells: &'a mut [u16], count: usize) -> Grid<'a>
        ensures cells { result.cells.now ≡ emptied cells.old (grid_count (length cells.old) count) }
        ensures table { grid_table result.cells.now result.count ≡ grid_empty (grid_count (length cells.old) count) }
        ensures same { result.cells.ghost_name ≡ cells.entry.ghost_name }
    {
        let count = routers(cells.len(), count);
        cells[..count * count].fill(0);
        Grid { cells, count }
    }

    // The cell of a pair of two routers.
    fn place(&self, from: usize, to: usize) -> Result<usize, Fault>
        ensures { PlacedIn self.now.cells.now (grid_count (length self.now.cells.now) self.now.count) from to result }
    {
        let count = self.count();
        check_pair(count, from, to).map_err(Fault::of_table)?;
        Ok(from * count + to)
    }
}

// The routers of a grid of so many cells: none where it cannot be made.
fn routers(cells: usize, count: usize) -> usize
    ensures { result ≡ grid_count cells count }
{
    Grid::check(cells, count).map_or(0, |()| count)
}

// kept: clauses of an impl stand in place of the trait's, so put and cut, which say more, repeat those two; and that
// the memory is the one that was lent is said at each call, since no meaning of a table speaks of it.
impl<'a> LinkTable for Grid<'a> {
    ghost kept = { λ g. (grid_table g.cells.now g.count).kept };

    ghost shown = { λ g. (grid_table g.cells.now g.count).shown };

    ghost count = { λ g. (grid_table g.cells.now g.count).count };

    ghost greatest = { λ g. (grid_table g.cells.now g.count).greatest };

    ghost limit = { λ g. (grid_table g.cells.now g.count).limit };

    ghost plain = { λ g. (grid_table g.cells.now g.count).plain };

    ghost laws = { λ g. grid_lawful g.cells.now g.count };

    fn count(&self) -> usize {
        routers(self.cells.len(), self.count)
    }

    fn greatest(&self) -> u32 {
        65535
    }

    fn limit(&self) -> usize {
        let count = self.count();
        count * count.saturating_sub(1)
    }

    fn is_plain(&self) -> bool {
        true
    }

    fn number(&self, from: usize, to: usize) -> Option<u32> {
        let place = self.place(from, to).ok()?;
        let number = u32::from(self.cells[place]);
        (number != 0).then_some(number)
    }

    fn put(&mut self, from: usize, to: usize, number: u32) -> Result<(), Fault>
        ensures table { Put from to number (grid_table self.old.cells.now self.old.count) result (grid_table self.new.cells.now self.new.count) }
        ensures refused { Unchanged result self.old self.new }
        ensures cells { self.new.cells.now ≡ answered_by result (with_cell self.old.cells.now self.old.count from to number) self.old.cells.now }
        ensures same { self.new.cells.ghost_name ≡ self.old.cells.ghost_name }
    {
        let place = self.place(from, to)?;
        if number == 0 || number > self.greatest() {
            return Err(Fault::of_table(Refusal::NumberOutOfRange));
        }
        // kept: a cast and no `try_from`, since the range was tested in the line above
        self.cells[place] = number as u16;
        Ok(())
    }

    fn cut(&mut self, from: usize, to: usize) -> Result<(), Fault>
        ensures table { Cut from to (grid_table self.old.cells.now self.old.count) result (grid_table self.new.cells.now self.new.count) }
        ensures refused { Unchanged result self.old self.new }
        ensures cells { self.new.cells.now ≡ answered_by result (with_cell self.old.cells.now self.old.count from to 0) self.old.cells.now }
        ensures same { self.new.cells.ghost_name ≡ self.old.cells.ghost_name }
    {
        let place = self.place(from, to)?;
        if self.cells[place] == 0 {
            return Err(Fault::of_table(Refusal::NotKept));
        }
        self.cells[place] = 0;
        Ok(())
    }
}
