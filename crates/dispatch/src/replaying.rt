//! Playing a list of calls on a fresh run.
ghost use Rattle.std.specs.Prelude.{◌≡◌};
ghost use Rattle.table.specs.Model.{content};
ghost use Rattle.theory.specs.Machine.{answers, start};
ghost use Rattle.dispatch.specs.Replayed.{calls_in, calls_of, answers_in};

use crate::replies::Step;
use crate::run::Run;
use policy::Policy;
use table::Table;

/// Makes the calls of these steps on a fresh run, in their order, and writes the answer to each beside it.
pub fn replay<P: Policy + Drop>(policy: P, table: &Table, steps: &mut [Step])
    ensures calls { calls_in steps.new ≡ calls_in steps.old }
    ensures answers { answers_in steps.new ≡ answers (content table.now) (P.meaning policy (content table.now)) start (calls_of steps.old) }
{
    let mut run = Run::new(policy, table);
    // The same two lines as in `capi`, whose steps are laid out for C.
    for step in steps.iter_mut() {
        step.answer = run.call(step.call);
    }
}
