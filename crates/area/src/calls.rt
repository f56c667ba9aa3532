ghost use Rattle.std.specs.Prelude.{◌≡◌, ◌≤◌, length};
ghost use Rattle.tables.specs.Meaning.{means};
ghost use Rattle.tables.specs.Tables.{Unchanged};
ghost use Rattle.area.specs.Areas.{opened, Put, Cut, Settle, hops_answer, path_answer, path_leaves, report_fault, report_of, report_answer, report_leaves, WhereGranted};
ghost use Rattle.area.specs.Meaning.{area_of};

use crate::area::Area;
use crate::checks::{check, check_route, refused};
use crate::links::read_links;
use costs::Cost;
use entries::Entry;
use faults::{Fault, Refusal};
use page_settling::settle;
use pagetable::PageTable;
use reports::write_report;
use squares::NumberSquare;
use std::marker::PhantomData;
use tables::{LinkTable, TwoWay, check_pair};

impl<C: Cost, T: LinkTable> Area<C, T> {
    // Lays an area on a table, all pages stale.
    pub fn open(table: T) -> Area<C, T>
        ensures area { area_of T.LinkTable result ≡ opened (means T.LinkTable table) }
        ensures table { result.table.below ≡ table }
    {
        Area {
            rule: PhantomData,
            table: TwoWay::new(table),
            pages: PageTable::new(),
        }
    }

    // Sets the number of a link, and makes all pages stale.
    pub fn put(&mut self, from: usize, to: usize, number: u32) -> Result<(), Fault>
        ensures area { Put C.Cost.costs from to number (area_of T.LinkTable self.old) result (area_of T.LinkTable self.new) }
        ensures refused { Unchanged result self.old self.new }
    {
        check_pair(self.table.count(), from, to).map_err(refused)?;
        C::read(number).ok_or(refused(Refusal::NumberNotRead))?;
        self.table.put(from, to, number)?;
        self.pages.mark_stale();
        Ok(())
    }

    // Removes the number of a link, and makes all pages stale.
    pub fn cut(&mut self, from: usize, to: usize) -> Result<(), Fault>
        ensures area { Cut from to (area_of T.LinkTable self.old) result (area_of T.LinkTable self.new) }
        ensures refused { Unchanged result self.old self.new }
    {
        check_pair(self.table.count(), from, to).map_err(refused)?;
        self.table.cut(from, to)?;
        self.pages.mark_stale();
        Ok(())
    }

    // The tree hop, the valid set and the other set of a root's page towards a router.
    pub fn hops(&self, root: usize, to: usize) -> Result<(Option<usize>, u32, u32), Fault>
        ensures { result ≡ hops_answer (area_of T.LinkTable self.now) root to }
    {
        let count = self.table.count();
        check(root < count, Refusal::NoSuchRouter)?;
        check(to < count, Refusal::NoSuchRouter)?;
        let page = self.current(root)?;
        Ok(page.hops_to(to))
    }

    // Writes the tree path from a root to a router to the front of the memory, and answers how many routers it has.
    pub fn path(&self, root: usize, to: usize, out: &mut [usize]) -> Result<usize, Fault>
        ensures answer { result ≡ path_answer (area_of T.LinkTable self.now) root to out.old }
        ensures memory { out.new ≡ path_leaves (area_of T.LinkTable self.now) root to out.old }
    {
        let count = self.table.count();
        check(root < count, Refusal::NoSuchRouter)?;
        check(to < count, Refusal::NoSuchRouter)?;
        check(out.len() >= count, Refusal::MemoryTooShort)?;
        let page = self.current(root)?;
        check_route(&page, root, to)?;
        Ok(page.write_path(to, count - 1, out))
    }

    // Works out the page of a root from the links standing. It leaves the best costs at place d and the rest costs
    // at place v × count + d of the handed memories; what the waiting memory then holds is free.
    pub fn settle(
        &mut self,
        root: usize,
        best: &mut [C],
        rest: &mut [C],
        waiting: &mut [Entry<C>],
    ) -> Result<(), Fault>
        ensures area { Settle C.Cost.costs root (area_of T.LinkTable self.old) best.old rest.old waiting.old result (area_of T.LinkTable self.new) best.new rest.new waiting.new }
        ensures table { self.new.table ≡ self.old.table }
    {
        let count = self.table.count();
        check(root < count, Refusal::NoSuchRouter)?;
        check(best.len() >= count, Refusal::MemoryTooShort)?;
        check(rest.len() >= count * count, Refusal::MemoryTooShort)?;
        check(waiting.len() >= count * count, Refusal::MemoryTooShort)?;
        let links = read_links(&self.table);
        let square = NumberSquare::new(&links, count);
        let page = settle(&square, root, best, rest, waiting);
        self.pages.enter(root, page);
        Ok(())
    }

    // Writes the report of a root's page to the front of the memory, and answers how many bytes it has: never more than 4,096.
    pub fn report(&self, root: usize, out: &mut [u8]) -> Result<usize, Fault>
        ensures answer { result ≡ report_answer (area_of T.LinkTable self.now) root out.old }
        ensures memory { out.new ≡ report_leaves (area_of T.LinkTable self.now) root out.old }
        ensures fits { WhereGranted (report_fault (area_of T.LinkTable self.now) root (length out.old)) (length (report_of (area_of T.LinkTable self.now) root) ≤ 4096) }
    {
        let count = self.table.count();
        check(root < count, Refusal::NoSuchRouter)?;
        check(out.len() >= 4096, Refusal::MemoryTooShort)?;
        let page = self.current(root)?;
        write_report(&page, count, root, out).map_err(refused)
    }

    // How many routers the area has.
    pub fn count(&self) -> usize
        ensures value { result ≡ (area_of T.LinkTable self.now).table.count }
        ensures bound { result ≤ 32 }
    {
        self.table.count()
    }
}
