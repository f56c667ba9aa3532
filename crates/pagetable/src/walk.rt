ghost use Rattle.std.specs.Prelude.{◌≡◌, ◌+◌, ◌<◌, ◌≤◌, length};
ghost use Rattle.memory.specs.Writes.{laid};
ghost use Rattle.pagetable.specs.Walks.{trail_on};

use crate::table::PageTable;
use masks::has;

impl PageTable {
    // Walks by valid hops: writes the routers met, the start included, to the front of the trail, and answers the hops.
    // Each pick in turn, modulo the size of the valid set, chooses the hop by rising router number.
    pub fn walk(
        &self,
        count: usize,
        from: usize,
        to: usize,
        picks: &[usize],
        trail: &mut [usize],
    ) -> usize
        requires { (0 < count) × (count ≤ 32) × (from < 32) × (count ≤ length trail.old) }
        ensures hops { result + 1 ≡ length (trail_on self.now count to picks.now from) }
        ensures within { result < count }
        ensures memory { trail.new ≡ laid trail.old 0 (trail_on self.now count to picks.now from) }
    {
        // kept: that the loop yields the hop number by a labelled break, round a `for` over the picks with their index
        // and a scan of the valid set, is a rule of the project.
        let mut here = from;
        trail[0] = from;
        let hops = 'walk: loop {
            for (i, pick) in picks.iter().enumerate() {
                if here == to || i == count - 1 {
                    break 'walk i;
                }
                let set = self.page(here).valid_to(to);
                let many = set.count_ones() as usize;
                if many == 0 {
                    break 'walk i;
                }
                let mut rank = *pick % many;
                for v in 0..32 {
                    if has(set, v) {
                        if rank == 0 {
                            here = v;
                            break;
                        }
                        rank -= 1;
                    }
                }
                trail[i + 1] = here;
            }
            break picks.len();
        };
        hops
    }
}
