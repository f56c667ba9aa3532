// The reports of all routers of an area.
ghost use Rattle.std.specs.Prelude.{◌≡◌, ◌<◌, ◌≤◌, length, take, IfOk};
ghost use Rattle.area.specs.Meaning.{area_of};
ghost use Rattle.printing.specs.Output.{reports_text};
ghost use Rattle.printing.specs.Roots.{root_text, Wide};

use crate::rooms::Rooms;
use area::Area;
use costs::Cost;
use std::alloc::{AllocError, Global};
use tables::LinkTable;

// Settles a root and writes its report to the front of the memory, and answers how many bytes it has.
// Neither call is refused: the memories have room, and a page that is settled is current.
fn write_root<C: Cost, T: LinkTable>(
    area: &mut Area<C, T>,
    root: usize,
    rooms: &mut Rooms<C>,
    out: &mut [u8],
) -> usize
    requires inside { root < (area_of T.LinkTable area.old).table.count }
    requires pages { Wide (area_of T.LinkTable area.old).pages }
    requires bytes { 4096 ≤ length out.old }
    ensures fits { result ≤ 4096 }
    ensures report { take result out.new ≡ root_text C.Cost.costs (area_of T.LinkTable area.old).table root }
    ensures table { (area_of T.LinkTable area.new).table ≡ (area_of T.LinkTable area.old).table }
    ensures pages { Wide (area_of T.LinkTable area.new).pages }
{
    area.settle(root, &mut rooms.best, &mut rooms.rest, &mut rooms.waiting)
        .unwrap();
    area.report(root, out).unwrap()
}

// The reports of all routers by rising number, one after another.
pub(crate) fn all_reports<C: Cost, T: LinkTable>(
    heap: Global,
    area: &mut Area<C, T>,
) -> Result<Vec<u8>, AllocError>
    requires { Wide (area_of T.LinkTable area.old).pages }
    ensures { IfOk result (λ bytes. bytes.items ≡ reports_text C.Cost.costs (area_of T.LinkTable area.old).table) }
{
    let mut rooms = Rooms::new(heap)?;
    let mut report = [0; 4096];
    let mut text = Vec::new(heap);
    for root in 0..area.count() {
        let len = write_root(area, root, &mut rooms, &mut report);
        text.extend_from_slice(&report[..len])?;
    }
    Ok(text)
}
