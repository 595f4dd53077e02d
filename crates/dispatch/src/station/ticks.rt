//! One tick of a station.
ghost use Rattle.std.specs.Prelude.{◌≡◌, ◌+◌, ◌<◌, true, false, List, ◌∷◌};
ghost use Rattle.table.specs.Model.{content};
ghost use Rattle.dispatch.specs.Advanced.{Moves, Stays, stage_after};
ghost use Rattle.dispatch.specs.Fronts.{Fronted, FrontOf};
ghost use Rattle.dispatch.specs.Lines.{board};
ghost use Rattle.dispatch.specs.Summaries.{Pending};

use super::Station;
use crate::front::Front;
use crate::replies::Ticked;
use crate::stage::{Outcome, Stage};
use table::Mode;

// That table and time stay is a clause of each step: a station is one plain struct, which holds the table beside what changes.
impl Station {
    // The first job of the chosen task; none where no task is chosen or no job of it waits.
    pub(crate) fn front(&self, chosen: Option<usize>) -> Option<Front>
        ensures { FrontOf (content self.now.table) (board self.now.lines) chosen result }
    {
        let task = chosen?;
        let known = self.table.task(task)?;
        let line = self.line(task);
        let release = line.first()?;
        Some(Front {
            task,
            release,
            line,
            known,
        })
    }

    // What a tick with this outcome leaves begun.
    fn turn(&mut self, outcome: Outcome)
        ensures stage { self.new.stage ≡ stage_after (content self.old.table).mode self.old.stage outcome }
        ensures table { self.new.table ≡ self.old.table }
        ensures time { self.new.time ≡ self.old.time }
        ensures lines { self.new.lines ≡ self.old.lines }
    {
        let mode = self.table.mode();
        match (&mut self.stage, mode, outcome) {
            (Stage::Begun { task }, Mode::NonPreemptive, Outcome::Went { task: next }) => *task =
                next,
            (stage, Mode::NonPreemptive, Outcome::Went { task }) => *stage = Stage::Begun { task },
            (stage, Mode::NonPreemptive, Outcome::Idled | Outcome::Ended) => *stage = Stage::Idle,
            (_, Mode::Preemptive, _) => {}
        }
    }

    // The tick that finishes the job; the time has passed already.
    pub(crate) fn finish(&mut self, front: Front) -> Ticked
        requires { Fronted (content self.old.table) (board self.old.lines) front }
        ensures table { self.new.table ≡ self.old.table }
        ensures time { self.new.time ≡ self.old.time }
        ensures moves { (p : Pending) (ps : List Pending) → (board self.old.lines front.task).waiting ≡ p ∷ ps → Moves (content self.old.table) self.old.time (board self.old.lines) (board self.new.lines) self.old.stage self.new.stage front.task true p ps result }
    {
        let response = self.time.saturating_sub(front.release);
        self.put(front.task, front.line.finish(self.time, front.known));
        self.turn(Outcome::Ended);
        Ticked::Finished {
            task: front.task,
            release: front.release,
            response,
        }
    }

    // A tick after which the job is not finished.
    pub(crate) fn go_on(&mut self, front: Front) -> Ticked
        requires front { Fronted (content self.old.table) (board self.old.lines) front }
        requires short { front.line.ran + 1 < front.known.cost }
        ensures table { self.new.table ≡ self.old.table }
        ensures time { self.new.time ≡ self.old.time }
        ensures moves { (p : Pending) (ps : List Pending) → (board self.old.lines front.task).waiting ≡ p ∷ ps → Moves (content self.old.table) self.old.time (board self.old.lines) (board self.new.lines) self.old.stage self.new.stage front.task false p ps result }
    {
        self.put(front.task, front.line.go_on());
        self.turn(Outcome::Went { task: front.task });
        Ticked::Ran {
            task: front.task,
            release: front.release,
        }
    }

    // A tick in which no job runs; the time has passed already.
    pub(crate) fn idle(&mut self) -> Ticked
        ensures table { self.new.table ≡ self.old.table }
        ensures time { self.new.time ≡ self.old.time }
        ensures stays { Stays (content self.old.table) (board self.old.lines) (board self.new.lines) self.old.stage self.new.stage result }
    {
        self.turn(Outcome::Idled);
        Ticked::Idle
    }

    // The time passes.
    pub(crate) fn pass(&mut self)
        requires { self.old.time < 4000000000 }
        ensures table { self.new.table ≡ self.old.table }
        ensures time { self.new.time ≡ self.old.time + 1 }
        ensures lines { self.new.lines ≡ self.old.lines }
        ensures stage { self.new.stage ≡ self.old.stage }
    {
        self.time += 1;
    }
}
