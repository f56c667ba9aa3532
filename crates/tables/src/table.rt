ghost use Rattle.std.specs.Prelude.{◌≡◌, ℕ, ◌≤◌, Bool};
ghost use Rattle.tables.specs.Links.{Links};
ghost use Rattle.tables.specs.Tables.{table, Lawful, Put, Cut, Unchanged};

use faults::Fault;

// The links of an area: the numbers that are kept for ordered pairs of routers, and those that are shown.
// kept: a member for each map and constant and not one for the whole, since a rule of the project wants the two maps to be members.
pub trait LinkTable {
    ghost kept: { Self → Links };

    ghost shown: { Self → Links };

    ghost count: { Self → ℕ };

    ghost greatest: { Self → ℕ };

    ghost limit: { Self → ℕ };
    // A plain table shows what it keeps.
    ghost plain: { Self → Bool };

    // What every table keeps to: each `impl` proves it.
    ghost laws: { (t : Self) → Lawful (table kept shown count greatest limit plain t) };

    fn count(&self) -> usize
        ensures value { result ≡ count self.now }
        ensures bound { result ≤ 32 };

    fn greatest(&self) -> u32
        ensures { result ≡ greatest self.now };

    fn limit(&self) -> usize
        ensures { result ≡ limit self.now };

    // Whether the table always shows what it keeps.
    fn is_plain(&self) -> bool
        ensures { result ≡ plain self.now };

    // The shown number of a pair.
    fn number(&self, from: usize, to: usize) -> Option<u32>
        ensures { result ≡ shown self.now from to };

    // Sets the kept number of a pair.
    fn put(&mut self, from: usize, to: usize, number: u32) -> Result<(), Fault>
        ensures table { Put from to number (table kept shown count greatest limit plain self.old) result (table kept shown count greatest limit plain self.new) }
        ensures refused { Unchanged result self.old self.new };

    // Removes the kept number of a pair.
    fn cut(&mut self, from: usize, to: usize) -> Result<(), Fault>
        ensures table { Cut from to (table kept shown count greatest limit plain self.old) result (table kept shown count greatest limit plain self.new) }
        ensures refused { Unchanged result self.old self.new };
}
