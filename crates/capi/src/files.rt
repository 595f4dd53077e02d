//! Calls on a table file: its report, and its judgement.
ghost use Rattle.std.specs.Prelude.{◌≡◌};
ghost use Rattle.capi.specs.Files.{ReportTold, JudgedFile, FindingTold};

use crate::finding::Finding;
use crate::outcome::Outcome;
use analysis::{Judgement, Row};
use planning::{judge_table, plan};
use table::{MOST_TASKS, Refusal, Table};
use tablefile::read_table;

/// Writes the report of a table file at the start of the lent output and answers its length.
/// A refusal leaves the output as it was.
#[unsafe(no_mangle)]
pub extern "C" fn station_plan(file: &[u8], out: &mut [u8]) -> Outcome
    ensures { ReportTold file.now out.old out.new result }
{
    let mut rows = [Row::default(); MOST_TASKS];
    Outcome::from(plan(file, &mut rows, out))
}

// The judgement of a table file.
fn judge_file(file: &[u8], rows: &mut [Row]) -> Result<Judgement, Refusal>
    ensures { JudgedFile file.now rows.old rows.new result }
{
    let mut table = Table::fresh();
    read_table(file, &mut table)?;
    judge_table(&table, rows)
}

/// Judges a table file: writes one row for each task into the lent rows, and answers the busy period and the verdict.
/// A refusal leaves the rows as they were.
#[unsafe(no_mangle)]
pub extern "C" fn station_judge(file: &[u8], rows: &mut [Row]) -> Finding
    ensures { FindingTold file.now rows.old rows.new result }
{
    Finding::from(judge_file(file, rows))
}
