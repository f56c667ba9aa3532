// Taking a link file into an area, line by line.
ghost use Rattle.std.specs.Prelude.{◌≡◌};
ghost use Rattle.faults.specs.Calls.{done};
ghost use Rattle.directions.specs.Directions.{and_then, next_number, next_value};
ghost use Rattle.directions.specs.Files.{list_all};
ghost use Rattle.linkfile.specs.Lines as lines;
ghost use Rattle.linkfile.specs.Reading.{stands, lent, onward};
ghost use Rattle.tables.specs.Meaning.{means};
ghost use Rattle.area.specs.Areas.{Put, put_fault};
ghost use Rattle.area.specs.Loads.{on_line, fault_on, count_judged, name_judged, put_listed, loaded, Loads, ReadsFiles};
ghost use Rattle.area.specs.Meaning.{area_of};

use crate::area::Area;
use costs::Cost;
use directions::{Direction, next_direction, read_routers, read_rule};
use faults::{Fault, Refusal};
use linkfile::{Reader, bad_line, same};
use tables::LinkTable;

// The fault with the line of the file that it is about.
// kept: an arm for each layer, since no plainer form keeps the layer and changes the line.
fn on_line(fault: Fault, line: usize) -> Fault
    ensures { result ≡ on_line line fault }
{
    match fault {
        Fault::Reader { refusal, .. } => Fault::Reader { refusal, line },
        Fault::Area { refusal, .. } => Fault::Area { refusal, line },
        Fault::Table { refusal, .. } => Fault::Table { refusal, line },
    }
}

impl<C: Cost, T: LinkTable> Area<C, T> {
    // The first line: the count of routers, which must be the table's.
    fn load_count(&self, reader: &mut Reader) -> Result<(), Fault>
        ensures answer { result ≡ and_then (next_number lines.routers (stands reader.old)) (count_judged (means T.LinkTable self.now.table.below).count (stands reader.old).line) }
        ensures text { lent reader.new ≡ lent reader.old }
        ensures reader { stands reader.new ≡ onward (stands reader.old) }
    {
        let line = reader.next_number();
        let count = read_routers(reader)? as usize;
        if !(2..=32).contains(&count) || count != self.table.count() {
            return Err(Fault::Area {
                refusal: Refusal::BadCount,
                line,
            });
        }
        Ok(())
    }

    // The second line: the name of the rule, which must be the area's.
    fn load_rule(&self, reader: &mut Reader) -> Result<(), Fault>
        ensures answer { result ≡ and_then (next_value lines.rule (stands reader.old)) (name_judged C.Cost.title (stands reader.old).line) }
        ensures text { lent reader.new ≡ lent reader.old }
        ensures reader { stands reader.new ≡ onward (stands reader.old) }
    {
        let line = reader.next_number();
        let name = read_rule(reader)?;
        if !same(name, C::name()) {
            return Err(bad_line(line));
        }
        Ok(())
    }

    // Puts one direction; a refused put has the line of its weight.
    fn load_direction(&mut self, d: Direction) -> Result<(), Fault>
        ensures answer { result ≡ done (fault_on d.line (put_fault C.Cost.costs (means T.LinkTable self.old.table.below) d.from d.to d.number)) }
        ensures area { Put C.Cost.costs d.from d.to d.number (area_of T.LinkTable self.old) (done (put_fault C.Cost.costs (means T.LinkTable self.old.table.below) d.from d.to d.number)) (area_of T.LinkTable self.new) }
    {
        self.put(d.from as usize, d.to as usize, d.number)
            .map_err(|fault| on_line(fault, d.line))
    }

    // Puts the directions that are left, up to the first fault.
    fn load_directions(&mut self, reader: &mut Reader) -> Result<(), Fault>
        ensures { Loads (put_listed C.Cost.costs (means T.LinkTable self.old.table.below) (list_all (stands reader.old))) (area_of T.LinkTable self.old) result (area_of T.LinkTable self.new) }
    {
        while let Some(direction) = next_direction(reader)? {
            self.load_direction(direction)?;
        }
        Ok(())
    }

    // Takes a link file line by line and puts its links, up to the first fault. Puts granted before it stay.
    pub fn load(&mut self, text: &[u8]) -> Result<(), Fault>
        ensures area { Loads (loaded C.Cost.costs C.Cost.title (means T.LinkTable self.old.table.below) text.now) (area_of T.LinkTable self.old) result (area_of T.LinkTable self.new) }
        ensures exact { ReadsFiles C.Cost.costs C.Cost.title (means T.LinkTable self.old.table.below) text.now (loaded C.Cost.costs C.Cost.title (means T.LinkTable self.old.table.below) text.now) }
    {
        let mut reader = Reader::new(text);
        self.load_count(&mut reader)?;
        self.load_rule(&mut reader)?;
        self.load_directions(&mut reader)
    }
}
