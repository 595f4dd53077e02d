//! The planner's main job: a table file in, its report out.
#![tactic(auto)]

ghost use Rattle.std.specs.Prelude.{◌≡◌, ℕ, List, IfOk, OnOk};
ghost use Rattle.policy.specs.Chosen.{chosen_order};
ghost use Rattle.analysis.specs.Judged.{Judged};
ghost use Rattle.analysis.specs.Promised.{RowsBound, RowsAttained, VerdictExact};
ghost use Rattle.planning.specs.Answered.{Told, Answer, Answered};
ghost use Rattle.planning.specs.Planned.{Planned};
ghost use Rattle.planning.specs.Published.{AsPublished};
ghost use Rattle.report.specs.Reported.{Reported};
ghost use Rattle.table.specs.Model.{content};

use analysis::{Judgement, Row, judge};
use policy::ByCode;
use report::{put_refusal, report};
use table::{MOST_TASKS, Refusal, Table};
use tablefile::read_table;
use theory::facts::analysis_is_unique;

/// Judges a table under the policy that its own code asks for, as `analysis::judge` does, with the same promises of every run.
/// Beside them stand the published analyses: under Fixed each row's response is the greatest that the recurrences give; under Deadline the table is admitted exactly when the demand criterion holds; and whatever the code, an admitted table meets that criterion.
#[tactic(auto, using(crate::proofs::Analyses::published, table::proofs::Tables::table_checked))]
pub fn judge_table(table: &Table, rows: &mut [Row]) -> Result<Judgement, Refusal>
    ensures judged { Judged (content table.now) (chosen_order (content table.now)) rows.old rows.new result }
    ensures never_longer { OnOk result (RowsBound (content table.now) (chosen_order (content table.now)) rows.new) }
    ensures attained { IfOk result (λ j. RowsAttained (content table.now) (chosen_order (content table.now)) rows.new j.verdict) }
    ensures late_exactly { IfOk result (λ j. VerdictExact (content table.now) (chosen_order (content table.now)) j.verdict) }
    ensures published { IfOk result (λ j. AsPublished (content table.now) rows.new j.verdict) }
{
    judge(&ByCode, table, rows)
}

/// The report of a table under the policy that its code asks for: Bands is Fixed over Deadline with the table's band.
pub fn report_by_code(table: &Table, rows: &mut [Row], out: &mut [u8]) -> Result<usize, Refusal>
    ensures { Reported (content table.now) (chosen_order (content table.now)) rows.old rows.new out.old out.new result }
{
    report(&ByCode, table, rows, out)
}

/// Reads a table file and writes its report at the start of the output, and answers its length; a refusal leaves rows and output as they were.
pub fn plan(input: &[u8], rows: &mut [Row], out: &mut [u8]) -> Result<usize, Refusal>
    ensures { Planned input.now rows.old rows.new out.old out.new result }
{
    let mut table = Table::fresh();
    read_table(input, &mut table)?;
    report_by_code(&table, rows, out)
}

// Leaves a report as it stands; otherwise writes the line that tells why there is none.
fn tell(planned: Result<usize, Refusal>, out: &mut [u8]) -> usize
    ensures { Told planned out.old out.new result }
{
    // A match: behind `unwrap_or_else` a proof knows no byte of the output that the closure borrowed, not even where it did not run.
    match planned {
        Ok(len) => len,
        Err(refusal) => put_refusal(out, refusal),
    }
}

/// The planner's whole answer to any bytes, written at the start of the output: the report of the table that they say, or the line that tells the refusal.
/// Answers its length; where fewer than 1,024 bytes are lent a refusal's line may not fit, and then it writes nothing and answers 0.
pub fn answer(input: &[u8], out: &mut [u8]) -> usize
    ensures { Answered input.now out.old out.new result }
{
    let mut rows = [Row::default(); MOST_TASKS];
    let planned = plan(input, &mut rows, out);
    tell(planned, out)
}

/// Any bytes have one answer; this function states it and does nothing else.
pub fn answer_is_unique()
    ensures { (input : List ℕ) (room : ℕ) (one other : List ℕ) → Answer input room one → Answer input room other → one ≡ other }
{
    analysis_is_unique();
}

#[cfg(test)]
mod tests;
