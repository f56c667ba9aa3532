ghost use Rattle.std.specs.Prelude.{◌≡◌, ◌<◌, length, None, slice_index, slice_index_or};
ghost use Rattle.memory.specs.Writes.{laid};
ghost use Rattle.pagetable.specs.Pages.{blank, hops_to, path_by};

use crate::page::Page;
use masks::without;

// The router that stands at a place, if there is one.
fn router_at(routers: &[Option<u8>], place: usize) -> Option<usize>
    ensures { result ≡ slice_index_or routers.now place None }
{
    routers.get(place).copied().flatten().map(usize::from)
}

impl Page {
    // A page that knows no router.
    pub fn new() -> Page
        ensures { result ≡ blank }
    {
        Page {
            father: [None; 32],
            hop: [None; 32],
            candidates: [0; 32],
            valid: [0; 32],
        }
    }

    // The father of a router, where it has one.
    pub fn father_of(&self, router: usize) -> Option<usize>
        ensures { result ≡ slice_index_or self.now.father router None }
    {
        router_at(&self.father, router)
    }

    // The tree hop of a router, where it has one.
    pub fn hop_of(&self, router: usize) -> Option<usize>
        ensures { result ≡ slice_index_or self.now.hop router None }
    {
        router_at(&self.hop, router)
    }

    // The valid set towards a router; from 32 on a router has none.
    pub(crate) fn valid_to(&self, router: usize) -> u32
        ensures { result ≡ slice_index self.now.valid router }
    {
        self.valid.get(router).copied().unwrap_or(0)
    }

    // The tree hop, the valid set and the other set towards a router.
    pub fn hops_to(&self, router: usize) -> (Option<usize>, u32, u32)
        ensures { result ≡ hops_to self.now router }
    {
        let candidates = self.candidates.get(router).copied().unwrap_or(0);
        let valid = self.valid_to(router);
        (self.hop_of(router), valid, without(candidates, valid))
    }

    // Writes the tree path of a router, at most `left` links long, to the front of the memory: that of its
    // father first, and then the router itself. It answers how many routers it wrote.
    pub fn write_path(&self, router: usize, left: usize, out: &mut [usize]) -> usize
        requires { left < length out.old }
        ensures many { result ≡ length (path_by self.now.father left router) }
        ensures memory { out.new ≡ laid out.old 0 (path_by self.now.father left router) }
    {
        let at = match self.father_of(router) {
            Some(father) if left > 0 => self.write_path(father, left - 1, out),
            _ => 0,
        };
        out[at] = router;
        at + 1
    }
}
