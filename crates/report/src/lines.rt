//! The lines of a report.
ghost use Rattle.std.specs.Prelude.{◌≡◌, ◌≤◌, length};
ghost use Rattle.table.specs.Content.{sporadic};
ghost use Rattle.table.specs.Model.{content};
ghost use Rattle.table.specs.Rules.{task_count};
ghost use Rattle.report.specs.Text.{row_word, verdict_word, header_line, stretch_line, task_line, task_lines, report_text};
ghost use Rattle.report.specs.Written.{Written};

use crate::page::{NEWLINE, Page, SPACE};
use analysis::{Judgement, Row, Verdict};
use table::{Table, Task};

// A word as bytes and no `Display`, as in `page`: a report is written into lent bytes.
fn row_word(row: &Row) -> &'static [u8]
    ensures { result.now ≡ row_word row.now }
{
    if row.deadline < row.response {
        b"late"
    } else {
        b"meets"
    }
}

// A word as bytes, likewise.
fn verdict_word(verdict: Verdict) -> &'static [u8]
    ensures { result.now ≡ verdict_word verdict }
{
    match verdict {
        Verdict::Admitted => b"admitted",
        Verdict::Late { task: _ } => b"late",
    }
}

// Policy, mode and number of tasks.
fn put_header(page: &mut Page, table: &Table)
    ensures { Written page.old (header_line (content table.now)) page.new }
{
    page.word(table.policy().word(), SPACE);
    page.word(table.mode().word(), SPACE);
    page.word(b"tasks", SPACE);
    page.number(table.count() as u32, NEWLINE);
}

// The busy period.
fn put_stretch(page: &mut Page, busy_period: u32)
    ensures { Written page.old (stretch_line busy_period) page.new }
{
    page.word(b"stretch", SPACE);
    page.number(busy_period, NEWLINE);
}

// One task.
#[tactic(auto, using(crate::proofs::Pages::then))]
fn put_row(page: &mut Page, number: u32, task: &Task, row: &Row)
    ensures { Written page.old (task_line number (sporadic task.now) row.now) page.new }
{
    page.number(number, SPACE);
    page.word(task.name.as_bytes(), SPACE);
    page.number(row.response, SPACE);
    page.number(row.offset, SPACE);
    page.number(row.deadline, SPACE);
    page.word(row_word(row), NEWLINE);
}

// The lines of all tasks.
fn put_rows(page: &mut Page, table: &Table, rows: &[Row])
    requires { task_count (content table.now) ≤ length rows.now }
    ensures { Written page.old (task_lines (content table.now) rows.now (task_count (content table.now))) page.new }
{
    for (number, (task, row)) in table.tasks().iter().zip(rows).enumerate() {
        put_row(page, number as u32, task, row);
    }
}

// The whole text.
pub(crate) fn put_report(page: &mut Page, table: &Table, judgement: &Judgement, rows: &[Row])
    requires { task_count (content table.now) ≤ length rows.now }
    ensures { Written page.old (report_text (content table.now) judgement.now rows.now) page.new }
{
    put_header(page, table);
    put_stretch(page, judgement.busy_period);
    put_rows(page, table, rows);
    page.word(verdict_word(judgement.verdict), NEWLINE);
}
