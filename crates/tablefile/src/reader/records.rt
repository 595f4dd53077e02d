//! The records of a table file, field by field.
ghost use Rattle.std.specs.Prelude.{◌≡◌, ◌+◌, map, length, IfOk, Ok, Err, MatchResult, OnOk};
ghost use Rattle.table.specs.Content.{sporadic};
ghost use Rattle.tablefile.specs.Fields.{◌then◌};
ghost use Rattle.tablefile.specs.Format.{header_at, task_at, end_at};
ghost use Rattle.tablefile.specs.Handed.{task_said};

use super::Reader;
use crate::records::{HeaderFields, TaskFields};
use table::checked::build::{band_in_range, cost_in_range, deadline_in_range, period_in_range};
use table::{MOST_TASKS, Refusal, Task};

// The marks: HT, TK and EN.
const HEADER_MARK: u32 = 0x4854;

const TASK_MARK: u32 = 0x544B;

const END_MARK: u32 = 0x454E;

impl<'a> Reader<'a> {
    pub(crate) fn read_header(&mut self) -> Result<HeaderFields, Refusal>
        ensures value { result ≡ header_at self.old.src.now self.old.pos }
        ensures place { OnOk result (self.new.pos ≡ self.old.pos + 6) }
        ensures input { self.new.src ≡ self.old.src }
    {
        self.number(
            |mark| mark == HEADER_MARK,
            Refusal::WrongMark { place: self.pos },
        )?;
        let policy = self.code()?;
        let mode = self.code()?;
        let count = self.small(
            |count| (1..=MOST_TASKS).contains(&count),
            Refusal::HeaderRange { place: self.pos },
        )?;
        let band = self.small(
            |band| band_in_range(policy, count, band),
            Refusal::HeaderRange { place: self.pos },
        )?;
        Ok(HeaderFields {
            policy,
            mode,
            count,
            band,
        })
    }

    pub(crate) fn read_task(
        &mut self,
        count: usize,
        earlier: &[Task],
    ) -> Result<TaskFields<'a>, Refusal>
        ensures value { MatchResult result (λ e. task_at self.old.src.now self.old.pos count (map sporadic earlier.now) ≡ Ok (task_said e)) (λ why. task_at self.old.src.now self.old.pos count (map sporadic earlier.now) ≡ Err why) }
        ensures place { IfOk result (λ e. self.new.pos ≡ self.old.pos + 10 + length e.name.now) }
        ensures input { self.new.src ≡ self.old.src }
    {
        self.number(
            |mark| mark == TASK_MARK,
            Refusal::WrongMark { place: self.pos },
        )?;
        let cost = self.number(cost_in_range, Refusal::TaskRange { place: self.pos })?;
        let period = self.number(period_in_range, Refusal::TaskRange { place: self.pos })?;
        let deadline = self.number(
            |deadline| deadline_in_range(period, deadline),
            Refusal::TaskRange { place: self.pos },
        )?;
        let rank = self.rank(count, earlier)?;
        let name = self.name()?;
        Ok(TaskFields {
            cost,
            period,
            deadline,
            rank,
            name,
        })
    }

    pub(crate) fn read_end(&mut self) -> Result<(), Refusal>
        ensures value { result ≡ (end_at self.old.src.now self.old.pos then λ _. Ok tt) }
        ensures place { OnOk result (self.new.pos ≡ self.old.pos + 2) }
        ensures input { self.new.src ≡ self.old.src }
    {
        self.number(
            |mark| mark == END_MARK,
            Refusal::WrongMark { place: self.pos },
        )?;
        if self.pos == self.src.len() {
            Ok(())
        } else {
            Err(Refusal::Trailing { place: self.pos })
        }
    }
}
