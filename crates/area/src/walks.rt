ghost use Rattle.std.specs.Prelude.{◌≡◌};
ghost use Rattle.area.specs.Areas.{walk_answer, walk_leaves};
ghost use Rattle.area.specs.Meaning.{area_of};

use crate::area::Area;
use crate::checks::{check, refused};
use costs::Cost;
use faults::{Fault, Refusal};
use tables::LinkTable;

impl<C: Cost, T: LinkTable> Area<C, T> {
    // Goes from router to router by valid hops, each chosen by a pick, writes the routers met to the front of the trail,
    // and answers the hops. Where it has not arrived with its last hop, the trail is written too.
    pub fn walk(
        &self,
        from: usize,
        to: usize,
        picks: &[usize],
        trail: &mut [usize],
    ) -> Result<usize, Fault>
        ensures answer { result ≡ walk_answer (area_of T.LinkTable self.now) from to picks.now trail.old }
        ensures memory { trail.new ≡ walk_leaves (area_of T.LinkTable self.now) from to picks.now trail.old }
    {
        let count = self.table.count();
        check(from < count, Refusal::NoSuchRouter)?;
        check(to < count, Refusal::NoSuchRouter)?;
        check(trail.len() >= count, Refusal::MemoryTooShort)?;
        check(picks.len() >= count - 1, Refusal::TooFewPicks)?;
        check(self.pages.all_current(count), Refusal::StalePage)?;
        check(
            to == from || self.pages.page(from).father_of(to).is_some(),
            Refusal::NoRoute,
        )?;
        let hops = self.pages.walk(count, from, to, picks, trail);
        if trail[hops] == to {
            Ok(hops)
        } else {
            Err(refused(Refusal::NotArrived))
        }
    }
}
