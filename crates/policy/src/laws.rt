//! Every policy is lawful: the statement for any type that implements the interface.
ghost use Rattle.table.specs.Rules.{TaskSet, Checked};
ghost use Rattle.policy.specs.Laws.{Lawful};

use crate::ordering::Policy;

/// Does nothing; its contract says that the policy's order keeps every law, for every task set that a table can hold.
pub fn laws_hold<P: Policy>(policy: &P)
    ensures { (s : TaskSet) → Checked s → Lawful s (P.meaning policy.now s) }
{}
