ghost use Rattle.std.specs.Prelude.{◌≡◌, not, length, position, slice_set};
ghost use Rattle.faults.specs.Calls.{in_table, done, answered_by};
ghost use Rattle.records.specs.Lists.{Tidy, list_refusal, list_count, list_table, list_lawful, list_empty, emptied, link_of, live, holds, found, held_at, place_of};
ghost use Rattle.tables.specs.Tables.{Put, Cut, Unchanged};

use crate::record::Record;
use faults::{Fault, Refusal};
use tables::{LinkTable, check_making, check_pair};

// Links in a list of records, each pair of routers in at most one.
#[derive(Drop)]
pub struct Records<'a> {
    records: &'a mut [Record],
    count: usize,
    ghost ok: { Tidy records.now count },
}

impl<'a> Records<'a> {
    // Whether a list of so many routers can be made of so many records.
    pub fn check(records: usize, count: usize) -> Result<(), Fault>
        ensures { result ≡ done (in_table (list_refusal records count)) }
    {
        check_making(count, records, 2)
    }

    // An empty list. Where the check would refuse, a list of no routers, and the records stay as they are.
    pub fn make(records: &'a mut [Record], count: usize) -> Records<'a>
        ensures records { result.records.now ≡ emptied records.old (list_count (length records.old) count) }
        ensures table { list_table result.records.now result.count ≡ list_empty (length records.old) (list_count (length records.old) count) }
        ensures same { result.records.ghost_name ≡ records.entry.ghost_name }
    {
        let count = Records::check(records.len(), count).map_or(0, |()| count);
        clear(records, count);
        Records { records, count }
    }

    // The first record that holds the number of a pair.
    fn position(&self, from: usize, to: usize) -> Option<usize>
        ensures { result ≡ position (λ r. holds r from to) self.now.records.now }
    {
        self.records.iter().position(|r| r.holds(from, to))
    }

    // The first record that is free.
    fn free(&self) -> Option<usize>
        ensures { result ≡ position (λ r. not (live r)) self.now.records.now }
    {
        self.records.iter().position(|r| r.number == 0)
    }

    // Where the number of a pair is or can be written.
    fn place(&self, from: usize, to: usize) -> Option<usize>
        ensures { result ≡ found (place_of self.now.records.now from to) (length self.now.records.now) }
    {
        // kept: with `or_else(|| self.free())` the proof of what is returned did not close, since nothing is known of what
        // a closure over `self` answers; `or(self.free())` would look for a free record each time.
        match self.position(from, to) {
            Some(held) => Some(held),
            None => self.free(),
        }
    }
}

// Frees every record for a list of so many routers, and leaves them where there are none.
fn clear(records: &mut [Record], count: usize)
    ensures { records.new ≡ emptied records.old count }
{
    if count != 0 {
        records.fill(Record::FREE);
    }
}

// kept: clauses of an impl stand in place of the trait's, so put and cut, which say more, repeat those two; and that
// the memory is the one that was lent is said at each call, since no meaning of a table speaks of it.
impl<'a> LinkTable for Records<'a> {
    ghost kept = { λ l. (list_table l.records.now l.count).kept };

    ghost shown = { λ l. (list_table l.records.now l.count).shown };

    ghost count = { λ l. (list_table l.records.now l.count).count };

    ghost greatest = { λ l. (list_table l.records.now l.count).greatest };

    ghost limit = { λ l. (list_table l.records.now l.count).limit };

    ghost plain = { λ l. (list_table l.records.now l.count).plain };

    ghost laws = { λ l. list_lawful l.records.now l.count l.ok };

    fn count(&self) -> usize {
        self.count
    }

    fn greatest(&self) -> u32 {
        u32::MAX
    }

    fn limit(&self) -> usize {
        self.records.len()
    }

    fn is_plain(&self) -> bool {
        true
    }

    fn number(&self, from: usize, to: usize) -> Option<u32> {
        if self.count == 0 {
            return None;
        }
        let place = self.position(from, to)?;
        Some(self.records[place].number)
    }

    fn put(&mut self, from: usize, to: usize, number: u32) -> Result<(), Fault>
        ensures table { Put from to number (list_table self.old.records.now self.old.count) result (list_table self.new.records.now self.new.count) }
        ensures refused { Unchanged result self.old self.new }
        ensures records { self.new.records.now ≡ answered_by result (slice_set self.old.records.now (place_of self.old.records.now from to) (link_of from to number)) self.old.records.now }
        ensures same { self.new.records.ghost_name ≡ self.old.records.ghost_name }
    {
        check_pair(self.count, from, to).map_err(Fault::of_table)?;
        if number == 0 {
            return Err(Fault::of_table(Refusal::NumberOutOfRange));
        }
        let place = self.place(from, to).ok_or(Fault::of_table(Refusal::Full))?;
        self.records[place] = Record { from, to, number };
        Ok(())
    }

    fn cut(&mut self, from: usize, to: usize) -> Result<(), Fault>
        ensures table { Cut from to (list_table self.old.records.now self.old.count) result (list_table self.new.records.now self.new.count) }
        ensures refused { Unchanged result self.old self.new }
        ensures records { self.new.records.now ≡ answered_by result (slice_set self.old.records.now (held_at self.old.records.now from to) (link_of from to 0)) self.old.records.now }
        ensures same { self.new.records.ghost_name ≡ self.old.records.ghost_name }
    {
        check_pair(self.count, from, to).map_err(Fault::of_table)?;
        let place = self
            .position(from, to)
            .ok_or(Fault::of_table(Refusal::NotKept))?;
        self.records[place] = Record {
            from,
            to,
            number: 0,
        };
        Ok(())
    }
}
