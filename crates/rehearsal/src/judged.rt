//! A judgement, and calls that are played beside it.
ghost use Rattle.std.specs.Prelude.{IfOk, OnOk};
ghost use Rattle.table.specs.Model.{content};
ghost use Rattle.analysis.specs.Judged.{Judged};
ghost use Rattle.analysis.specs.Promised.{RowsBound, RowsAttained, VerdictExact};
ghost use Rattle.dispatch.specs.Replayed.{answers_in};
ghost use Rattle.rehearsal.specs.Replayed.{Replayed};
ghost use Rattle.rehearsal.specs.Within.{WithinRows, OnTime};

use analysis::{Judgement, Row, judge};
use dispatch::{Step, replay};
use policy::Policy;
use table::{Refusal, Table};

/// Judges a table under a policy, and then makes the calls of these steps on a fresh run of it, in their order, and writes the answer to each beside it.
/// No answer tells a response longer than its row's, and where the table is admitted none tells a missed deadline or a full line.
/// Refused, with rows and steps as they were, where the judgement is.
pub fn judged_replay<P: Policy + Drop>(
    policy: P,
    table: &Table,
    rows: &mut [Row],
    steps: &mut [Step],
) -> Result<Judgement, Refusal>
    ensures judged { Judged (content table.now) (P.meaning policy (content table.now)) rows.old rows.new result }
    ensures replayed { Replayed (content table.now) (P.meaning policy (content table.now)) steps.old steps.new result }
    ensures within { OnOk result (WithinRows rows.new (answers_in steps.new)) }
    ensures on_time { IfOk result (λ j. OnTime (content table.now) j.verdict (answers_in steps.new)) }
    ensures never_longer { OnOk result (RowsBound (content table.now) (P.meaning policy (content table.now)) rows.new) }
    ensures attained { IfOk result (λ j. RowsAttained (content table.now) (P.meaning policy (content table.now)) rows.new j.verdict) }
    ensures late_exactly { IfOk result (λ j. VerdictExact (content table.now) (P.meaning policy (content table.now)) j.verdict) }
{
    let judgement = judge(&policy, table, rows)?;
    replay(policy, table, steps);
    Ok(judgement)
}
