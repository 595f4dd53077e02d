//! A policy from outside, judged and run: the whole guarantee by a call alone. The tests play courses that were computed by hand.
#![tactic(auto)]

ghost use Rattle.std.specs.Prelude.{IfOk, OnOk};
ghost use Rattle.table.specs.Model.{content};
ghost use Rattle.classes.specs.ClassOrder.{classes_of, offsets_of, number_at, offset_at, class_order};
ghost use Rattle.analysis.specs.Judged.{Judged};
ghost use Rattle.analysis.specs.Promised.{RowsBound, RowsAttained, VerdictExact};
ghost use Rattle.dispatch.specs.Replayed.{answers_in};
ghost use Rattle.rehearsal.specs.Replayed.{Replayed};
ghost use Rattle.rehearsal.specs.Within.{WithinRows, OnTime};

use analysis::{Judgement, Row};
use classes::Classes;
use dispatch::Step;
use rehearsal::judged_replay;
use table::{Refusal, Table};

#[cfg(test)]
mod by_class;
#[cfg(test)]
mod piles;
#[cfg(test)]
mod playing;

/// Judges a table under an order by classes and plays calls on a run of it: `judged_replay`, whose promises are here those of that order.
/// Refused, with rows and steps as they were, where the judgement is.
pub fn judged_replay_by_class(
    policy: Classes,
    table: &Table,
    rows: &mut [Row],
    steps: &mut [Step],
) -> Result<Judgement, Refusal>
    ensures judged { Judged (content table.now) (class_order (number_at (classes_of policy.members)) (offset_at (offsets_of policy.members))) rows.old rows.new result }
    ensures replayed { Replayed (content table.now) (class_order (number_at (classes_of policy.members)) (offset_at (offsets_of policy.members))) steps.old steps.new result }
    ensures within { OnOk result (WithinRows rows.new (answers_in steps.new)) }
    ensures on_time { IfOk result (λ j. OnTime (content table.now) j.verdict (answers_in steps.new)) }
    ensures never_longer { OnOk result (RowsBound (content table.now) (class_order (number_at (classes_of policy.members)) (offset_at (offsets_of policy.members))) rows.new) }
    ensures attained { IfOk result (λ j. RowsAttained (content table.now) (class_order (number_at (classes_of policy.members)) (offset_at (offsets_of policy.members))) rows.new j.verdict) }
    ensures late_exactly { IfOk result (λ j. VerdictExact (content table.now) (class_order (number_at (classes_of policy.members)) (offset_at (offsets_of policy.members))) j.verdict) }
{
    judged_replay(policy, table, rows, steps)
}
