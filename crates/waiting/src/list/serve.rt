// Lists of calls, made one after another.
ghost use Rattle.std.specs.Prelude.{◌≡◌};
ghost use Rattle.waiting.specs.Runs.{Step, ServeAnswer};
ghost use Rattle.waiting.specs.Waiting.{handed};

use crate::Ranked;
use crate::calls::{Answer, Call};
use crate::list::Waiting;
use faults::Refusal;

impl<'a, E: Ranked> Waiting<'a, E> {
    // Makes one call.
    pub fn serve_one(&mut self, call: Call<E>) -> Answer<E>
        ensures answer { Step E.before self.old call result self.new }
        ensures handed { handed self.new ≡ handed self.old }
    {
        match call {
            Call::Push(e) => Answer::Pushed(self.push(e)),
            Call::Pop => Answer::Popped(self.pop()),
        }
    }

    // Makes the calls in turn and writes down each answer, or refuses where the answers have too
    // few places.
    pub fn serve(&mut self, calls: &[Call<E>], answers: &mut [Answer<E>]) -> Result<(), Refusal>
        ensures answer { ServeAnswer E.before calls.now self.old answers.old self.new answers.new result }
        ensures handed { handed self.new ≡ handed self.old }
    {
        if answers.len() < calls.len() {
            return Err(Refusal::MemoryTooShort);
        }
        // kept: after `calls.iter().zip(answers.iter_mut())` a proof knows how many answers there
        // are, and not which: so each is written at its index.
        for (i, call) in calls.iter().enumerate() {
            answers[i] = self.serve_one(*call);
        }
        Ok(())
    }
}
