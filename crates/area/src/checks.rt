// How calls are refused: a call makes its checks one after another, and the first that does not hold is its answer.
ghost use Rattle.std.specs.Prelude.{◌≡◌, ◌<◌, true, Some, None, OnOk, if◌then◌else◌};
ghost use Rattle.faults.specs.Calls.{in_area, done};
ghost use Rattle.faults.specs.declared.fault.Fault.TheVariants as fault;
ghost use Rattle.pagetable.specs.Pages.{page_of};
ghost use Rattle.area.specs.Areas.{answered, stale_refusal, route_refusal};

use crate::area::Area;
use costs::Cost;
use faults::{Fault, Refusal};
use pagetable::Page;
use tables::LinkTable;

// A refusal of the area, where no file is read.
// kept: no `From<Refusal>` for it, since the same refusal is also another layer's.
pub(crate) fn refused(refusal: Refusal) -> Fault
    ensures { result ≡ fault.Area refusal 0 }
{
    Fault::Area { refusal, line: 0 }
}

// Refuses a call by this, unless the condition holds.
pub(crate) fn check(holds: bool, refusal: Refusal) -> Result<(), Fault>
    ensures answer { result ≡ done (in_area (if holds then None else Some refusal)) }
    ensures passed { OnOk result (holds ≡ true) }
{
    if holds { Ok(()) } else { Err(refused(refusal)) }
}

// There is a route on a page: to its root itself, or to a router that has a father.
pub(crate) fn check_route(page: &Page, root: usize, to: usize) -> Result<(), Fault>
    ensures answer { result ≡ done (in_area (route_refusal page.now root to)) }
    ensures passed { OnOk result (route_refusal page.now root to ≡ None) }
{
    check(to == root || page.father_of(to).is_some(), Refusal::NoRoute)
}

impl<C: Cost, T: LinkTable> Area<C, T> {
    // The page of a root, which is refused while it is stale.
    pub(crate) fn current(&self, root: usize) -> Result<Page, Fault>
        requires { root < 32 }
        ensures { result ≡ answered (in_area (stale_refusal self.now.pages root)) (page_of self.now.pages root) }
    {
        check(self.pages.is_current(root), Refusal::StalePage)?;
        Ok(self.pages.page(root))
    }
}
