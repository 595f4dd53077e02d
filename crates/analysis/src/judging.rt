//! The judgement of a table under any policy.
ghost use Rattle.std.specs.Prelude.{◌≡◌, ℕ, ◌<◌, ◌≤◌, length, drop, IfOk, OnOk};
ghost use Rattle.table.specs.Model.{content};
ghost use Rattle.table.specs.Rules.{task_at, task_count};
ghost use Rattle.policy.specs.Laws.{SmallReach};
ghost use Rattle.theory.specs.BusyPeriod.{BusyPeriod};
ghost use Rattle.analysis.specs.Analysed.{Analysed};
ghost use Rattle.analysis.specs.Judged.{Judged, RowOf, VerdictOf, row_at};
ghost use Rattle.analysis.specs.Lanes.{lane_at};
ghost use Rattle.analysis.specs.Promised.{RowsBound, RowsAttained, VerdictExact};
ghost use Rattle.analysis.specs.Reaches.{lead_of, LaneTo};

use crate::busy::busy_period;
use crate::lanes::{IDLE, Lane};
use crate::rows::{Judgement, Row, Verdict};
use crate::window::Own;
use crate::window::offsets::worst_response;
use policy::{Policy, Reach};
use std::array;
use table::{Refusal, Table};

// A reach with 100,000 added; Always and Never as far as an offset can tell.
fn lead_of(reach: Reach) -> u32
    requires { SmallReach reach }
    ensures value { result ≡ lead_of reach }
    ensures bound { result ≤ 200000 }
{
    match reach {
        Reach::Always => 200_000,
        Reach::Never => 0,
        Reach::Within(ticks) => (ticks + 100_000) as u32,
    }
}

// A table with its busy period, under a policy.
#[derive(Drop)]
struct Analysis<'a, P> {
    policy: &'a P,
    table: &'a Table,
    busy: u32,
    ghost short: { busy ≤ 60000 },
}

impl<P: Policy> Analysis<'_, P> {
    // The lane of task j in the analysis of task i.
    fn lane_to(&self, i: usize, j: usize) -> Lane
        ensures { j < task_count (content self.now.table.now) → LaneTo (content self.now.table.now) (P.meaning self.now.policy.now (content self.now.table.now)) i j result }
    {
        let Some(task) = self.table.task(j) else {
            return IDLE;
        };
        Lane {
            cost: if j == i { 0 } else { task.cost },
            period: task.period,
            lead: lead_of(self.policy.reach(self.table, i, j)),
            limit: 0,
        }
    }

    // The row of task i.
    fn row_of(&self, i: usize) -> Row
        requires { BusyPeriod (content self.now.table.now) self.now.busy }
        ensures { i < task_count (content self.now.table.now) → RowOf (content self.now.table.now) (P.meaning self.now.policy.now (content self.now.table.now)) self.now.busy i result }
    {
        let Some(task) = self.table.task(i) else {
            return Row::default();
        };
        let mut lanes: [Lane; 24] = array::from_fn(|j| self.lane_to(i, j));
        let own = Own {
            mode: self.table.mode(),
            cost: task.cost,
            period: task.period,
        };
        let (response, offset) = worst_response(own, &mut lanes[..self.table.count()], self.busy);
        Row {
            response,
            offset,
            deadline: task.deadline,
        }
    }

    // Writes the row of every task.
    fn fill(&self, rows: &mut [Row])
        requires busy { BusyPeriod (content self.now.table.now) self.now.busy }
        requires all { length rows.old ≡ task_count (content self.now.table.now) }
        ensures { (i : ℕ) → i < task_count (content self.now.table.now) → RowOf (content self.now.table.now) (P.meaning self.now.policy.now (content self.now.table.now)) self.now.busy i (row_at rows.new i) }
    {
        for (i, row) in rows.iter_mut().enumerate() {
            *row = self.row_of(i);
        }
    }
}

// The first row that is late, if one is.
fn verdict(rows: &[Row]) -> Verdict
    ensures { VerdictOf (length rows.now) rows.now result }
{
    match rows.iter().position(|row| row.response > row.deadline) {
        Some(task) => Verdict::Late { task },
        None => Verdict::Admitted,
    }
}

/// Judges a table under a policy: writes one row for each task, leaves further rows untouched, and answers the busy period and the verdict.
/// For every run of the table under the policy: no job is unfinished as long after its release as its row's response, in an admitted table each task's worst course attains it, and the table is late exactly when some list of calls leaves a job unfinished at its deadline.
/// Refused, with the rows as they were, where fewer rows are lent than there are tasks, and then where there is no busy period of up to 60,000 ticks.
pub fn judge<P: Policy>(policy: &P, table: &Table, rows: &mut [Row]) -> Result<Judgement, Refusal>
    ensures judged { Judged (content table.now) (P.meaning policy.now (content table.now)) rows.old rows.new result }
    ensures never_longer { OnOk result (RowsBound (content table.now) (P.meaning policy.now (content table.now)) rows.new) }
    ensures attained { IfOk result (λ j. RowsAttained (content table.now) (P.meaning policy.now (content table.now)) rows.new j.verdict) }
    ensures late_exactly { IfOk result (λ j. VerdictExact (content table.now) (P.meaning policy.now (content table.now)) j.verdict) }
{
    let count = table.count();
    if rows.len() < count {
        return Err(Refusal::FewRows);
    }
    let busy = busy_period(table).ok_or(Refusal::NoBusyPeriod)?;
    let analysis = Analysis {
        policy,
        table,
        busy,
    };
    let front = &mut rows[..count];
    analysis.fill(front);
    Ok(Judgement {
        busy_period: busy,
        verdict: verdict(front),
    })
}

/// The row of one task of a table under a policy.
/// Refused where the table has no such task, and then where there is no busy period of up to 60,000 ticks.
pub fn analyse_task<P: Policy>(policy: &P, table: &Table, task: usize) -> Result<Row, Refusal>
    ensures { Analysed (content table.now) (P.meaning policy.now (content table.now)) task result }
{
    if task >= table.count() {
        return Err(Refusal::NoTaskToJudge { task });
    }
    let busy = busy_period(table).ok_or(Refusal::NoBusyPeriod)?;
    let analysis = Analysis {
        policy,
        table,
        busy,
    };
    Ok(analysis.row_of(task))
}
