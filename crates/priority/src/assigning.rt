//! Audsley's assignment: the ranks from the last one up, each by the highest-numbered task left that meets its deadline there.
ghost use Rattle.std.specs.Prelude.{ℕ, ◌+◌, ◌<◌, ◌≤◌, Decides};
ghost use Rattle.table.specs.Model.{content};
ghost use Rattle.table.specs.Rules.{task_count};
ghost use Rattle.priority.specs.Assignment.{Outcome};
ghost use Rattle.priority.specs.Steps.{JudgedBusy, InTime, Put, Tried, Reordered, Taken, Ranked};

use crate::ranking::exchange_ranks;
use analysis::{analyse_task, busy_period};
use policy::Fixed;
use policy::compare::rank_of;
use table::{Refusal, Table};

// Whether the task meets its deadline under the ranks of the table.
fn in_time(order: &Table, task: usize) -> bool
    ensures { (L : ℕ) → JudgedBusy (content order.now) L → task < task_count (content order.now) → Decides result (InTime (content order.now) L task) }
{
    analyse_task(&Fixed, order, task).is_ok_and(|row| row.response <= row.deadline)
}

// The order with the task at this rank; none where the task has a rank behind it, or is late there.
fn try_rank(order: &Table, task: usize, rank: u8) -> Option<Table>
    requires known { task < task_count (content order.now) }
    requires low { 1 ≤ rank }
    requires high { rank ≤ task_count (content order.now) }
    ensures put { Put (content order.now) rank task result }
    ensures fits { (L : ℕ) → JudgedBusy (content order.now) L → Tried (content order.now) L rank task result }
{
    let present = rank_of(order, task);
    if present > rank {
        return None;
    }
    let next = exchange_ranks(order, present, rank);
    in_time(&next, task).then_some(next)
}

// The order with this rank filled; none where no task left can take it.
fn take_rank(order: &Table, rank: u8) -> Option<Table>
    requires low { 1 ≤ rank }
    requires high { rank ≤ task_count (content order.now) }
    ensures reordered { Reordered (content order.now) result }
    ensures taken { (L : ℕ) → JudgedBusy (content order.now) L → Taken (content order.now) L rank result }
{
    (0..order.count())
        .rev()
        .find_map(|task| try_rank(order, task, rank))
}

// The table with all ranks filled.
fn fill_ranks(table: &Table) -> Result<Table, Refusal>
    ensures { (L : ℕ) → JudgedBusy (content table.now) L → Ranked (content table.now) L result }
{
    // Nothing is exchanged: the ranks to begin with are those of the table.
    let mut order = exchange_ranks(table, 1, 1);
    // A loop: each turn makes the next order from the last and may refuse; `try_fold` would say the same around a closure.
    for left in (0..table.count()).rev() {
        let rank = left + 1;
        order = take_rank(&order, rank as u8).ok_or(Refusal::RankUnfilled { rank })?;
    }
    Ok(order)
}

/// Writes into the place the table with new ranks, policy Fixed and band 0: from the last rank up, each takes the highest-numbered task left that meets its deadline there.
/// Refused, with the place as it was, where there is no busy period of up to 60,000 ticks, and then at the first rank that no task left can take: no order of the tasks is admitted then.
pub fn assign_priorities(table: &Table, place: &mut Table) -> Result<(), Refusal>
    ensures { Outcome (content table.now) place.old place.new result }
{
    busy_period(table).ok_or(Refusal::NoBusyPeriod)?;
    *place = fill_ranks(table)?;
    Ok(())
}
