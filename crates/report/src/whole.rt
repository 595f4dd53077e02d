//! The report of a table under any policy.
ghost use Rattle.std.specs.Prelude.{◌≤◌, IfOk};
ghost use Rattle.table.specs.Model.{content};
ghost use Rattle.report.specs.Reported.{Reported, longest_report};

use crate::lines::put_report;
use crate::page::Page;
use analysis::{Row, judge};
use policy::Policy;
use table::{Refusal, Table};

/// The least output that a report is lent.
pub const OUTPUT_BYTES: usize = 1024;

/// Judges the table and writes the report at the start of the output, and answers its length; a refusal leaves rows and output as they were.
pub fn report<P: Policy>(
    policy: &P,
    table: &Table,
    rows: &mut [Row],
    out: &mut [u8],
) -> Result<usize, Refusal>
    ensures reported { Reported (content table.now) (P.meaning policy.now (content table.now)) rows.old rows.new out.old out.new result }
    ensures short { IfOk result (λ len. len ≤ longest_report) }
{
    if rows.len() < table.count() {
        return Err(Refusal::FewRows);
    }
    if out.len() < OUTPUT_BYTES {
        return Err(Refusal::ShortOutput);
    }
    let judgement = judge(policy, table, rows)?;
    let mut page = Page::new(out);
    put_report(&mut page, table, &judgement, rows);
    Ok(page.written())
}
