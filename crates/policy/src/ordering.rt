//! The policy interface: an order on jobs with its laws, and two calls that answer from it.
ghost use Rattle.std.specs.Prelude.{◌≡◌};
ghost use Rattle.table.specs.Model.{content};
ghost use Rattle.table.specs.Rules.{TaskSet, Checked};
ghost use Rattle.policy.specs.Answers.{ahead_answer, reach_answer};
ghost use Rattle.policy.specs.Laws.{Total, Transitive, EarlierFirst, ReachRange, ReachRule};
ghost use Rattle.policy.specs.Order.{Order};

use crate::job::{Job, Reach};
use table::Table;

/// An ordering policy. Its meaning is an order for each task set that a checked table can hold; every implementation shows the laws.
pub trait Policy {
    ghost meaning: { Self → TaskSet → Order };

    /// Whether the first job is ahead of the second; no for a job of no task of the table, for a tick outside -1 to 4,000,000,000, and for a job and itself.
    fn ahead(&self, table: &Table, first: Job, second: Job) -> bool
        ensures { result ≡ ahead_answer (content table.now) (meaning self.now (content table.now)) first second };

    /// The reach from one task to another; Never where the table lacks one of them, and 0 from a task to itself.
    fn reach(&self, table: &Table, from: usize, to: usize) -> Reach
        ensures { result ≡ reach_answer (content table.now) (meaning self.now (content table.now)) from to };

    ghost total: { (p : Self) (s : TaskSet) → Checked s → Total s (meaning p s) };

    ghost transitive: { (p : Self) (s : TaskSet) → Checked s → Transitive s (meaning p s) };

    ghost earlier: { (p : Self) (s : TaskSet) → Checked s → EarlierFirst s (meaning p s) };

    ghost range: { (p : Self) (s : TaskSet) → Checked s → ReachRange s (meaning p s) };

    ghost rule: { (p : Self) (s : TaskSet) → Checked s → ReachRule s (meaning p s) };
}
