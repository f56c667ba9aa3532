ghost use Rattle.std.specs.Prelude.{◌≡◌, min, length, take, drop};
ghost use Rattle.area.specs.Meaning.{area_of};
ghost use Rattle.operating.specs.Meaning.{held, Same};
ghost use Rattle.operating.specs.Operations.{Made, Operated};

use crate::calls::{Answer, Call};
use crate::memories::Memories;
use area::Area;
use costs::Cost;
use tables::LinkTable;

// Makes one call. It writes only the memories that are the call's own.
fn make_call<C: Cost, T: LinkTable>(
    area: &mut Area<C, T>,
    call: Call,
    memories: &mut Memories<C>,
) -> Answer
    ensures made { Made C.Cost.costs call.entry (area_of {C = C} T.LinkTable area.old) (held memories.old) result (area_of {C = C} T.LinkTable area.new) (held memories.new) }
    ensures same { Same memories.old memories.new }
{
    match call {
        Call::Put { from, to, number } => Answer::Done(area.put(from, to, number)),
        Call::Cut { from, to } => Answer::Done(area.cut(from, to)),
        Call::Settle { root } => Answer::Done(area.settle(
            root,
            memories.best,
            memories.rest,
            memories.waiting,
        )),
        Call::Hops { root, to } => Answer::Found(area.hops(root, to)),
        Call::Path { root, to } => Answer::Wrote(area.path(root, to, memories.path)),
        Call::Walk { from, to, picks } => Answer::Wrote(area.walk(from, to, picks, memories.trail)),
    }
}

// Makes calls one after another, as long as there is a place for the answer, and says how many.
pub fn operate<C: Cost, T: LinkTable>(
    area: &mut Area<C, T>,
    calls: &[Call],
    answers: &mut [Answer],
    memories: &mut Memories<C>,
) -> usize
    ensures made { result ≡ min (length calls.now) (length answers.old) }
    ensures run { Operated C.Cost.costs (area_of {C = C} T.LinkTable) area.old (held memories.old) (take result calls.now) (take result answers.new) area.new (held memories.new) }
    ensures answers { drop result answers.new ≡ drop result answers.old }
    ensures same { Same memories.old memories.new }
{
    let made = calls.len().min(answers.len());
    // kept: answers are written by their place; of those written through a `zip` with `iter_mut` a proof knows nothing.
    for (i, call) in calls[..made].iter().enumerate() {
        answers[i] = make_call(area, *call, memories);
    }
    made
}
