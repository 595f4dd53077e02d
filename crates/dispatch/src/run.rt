//! A run: a policy beside a station.
ghost use Rattle.std.specs.Prelude.{◌≡◌, ◌+◌, ◌<◌, List, [], ◌∷◌, Some, OnErr};
ghost use Rattle.table.specs.Model.{content};
ghost use Rattle.table.specs.Rules.{task_at, task_count};
ghost use Rattle.policy.specs.Answers.{ahead_answer};
ghost use Rattle.theory.specs.Machine.{release, tick, look};
ghost use Rattle.dispatch.specs.Advanced.{Advanced, Moves};
ghost use Rattle.dispatch.specs.Fronts.{Fronted};
ghost use Rattle.dispatch.specs.Leading.{Leading, Leads, Picked, better_of};
ghost use Rattle.dispatch.specs.Lines.{board};
ghost use Rattle.dispatch.specs.Oldest.{Oldest};
ghost use Rattle.dispatch.specs.Replies.{call_of, reply_told, release_told, tick_told, look_told};
ghost use Rattle.dispatch.specs.Represents.{Answered, Answers};
ghost use Rattle.dispatch.specs.Summaries.{Pending, ends_now};

use crate::front::Front;
use crate::replies::{Counts, Event, Reply, Ticked};
use crate::stage::{Head, Stage};
use crate::station::Station;
use policy::{Job, Policy};
use table::{Mode, Refusal, Table};

// The better of the best head so far and the first job of a later task, if one waits.
fn better<P: Policy>(policy: &P, table: &Table, best: Head, task: usize, first: Option<u32>) -> Head
    ensures { Some result ≡ better_of (ahead_answer (content table.now) (P.meaning policy.now (content table.now))) (Some best) task first }
{
    let Some(release) = first else {
        return best;
    };
    let mine = Head { task, release };
    if policy.ahead(table, Job::from(mine), Job::from(best)) {
        mine
    } else {
        best
    }
}

// The job that leads all that wait. The table is copied only where one waits.
fn leader<P: Policy>(policy: &P, station: &Station) -> Option<Head>
    ensures { Leading (ahead_answer (content station.now.table) (P.meaning policy.now (content station.now.table))) (board station.now.lines) (task_count (content station.now.table)) result }
{
    let first = station.first_waiting()?;
    let table = station.table();
    let mut best = first;
    let next = first.task + 1;
    // A loop: a `fold` would hand the best head through a closure that holds policy, table and station, and be no plainer.
    for task in next..table.count() {
        best = better(policy, &table, best, task, station.first(task));
    }
    Some(best)
}

// Its task.
fn leading_task<P: Policy>(policy: &P, station: &Station) -> Option<usize>
    ensures { Leads (ahead_answer (content station.now.table) (P.meaning policy.now (content station.now.table))) (board station.now.lines) (task_count (content station.now.table)) result }
{
    leader(policy, station).map(|head| head.task)
}

// The task whose first job is to run.
fn pick<P: Policy>(policy: &P, station: &Station) -> Option<usize>
    ensures { Picked (content station.now.table).mode station.now.stage (ahead_answer (content station.now.table) (P.meaning policy.now (content station.now.table))) (board station.now.lines) (task_count (content station.now.table)) result }
{
    match (station.table().mode(), station.stage()) {
        (Mode::NonPreemptive, Stage::Begun { task }) => Some(task),
        (Mode::NonPreemptive, Stage::Idle) | (Mode::Preemptive, _) => leading_task(policy, station),
    }
}

/// A run of a checked table under a policy.
#[derive(Drop)]
pub struct Run<P: Policy> {
    policy: P,
    station: Station,
}

// That policy and table stay is a named clause of each call, for callers; one record of both would be no plainer to them.
impl<P: Policy> Run<P> {
    /// A run at time 0 with no jobs; its mode is the table's.
    pub fn new(policy: P, table: &Table) -> Run<P>
        ensures policy { result.policy ≡ policy }
        ensures table { result.station.table ≡ table.now }
        ensures answered { Answered (P.meaning policy (content table.now)) result.station [] }
    {
        Run {
            policy,
            station: Station::new(table),
        }
    }

    /// A job of this task is released now; the answer is the time.
    /// Refused, with the run as it was: no such task, then less than T ticks after its last release, then 8 jobs waiting.
    pub fn release(&mut self, task: usize) -> Result<u32, Refusal>
        ensures policy { self.new.policy ≡ self.old.policy }
        ensures table { self.new.station.table ≡ self.old.station.table }
        ensures refused { OnErr result (self.new ≡ self.old) }
        ensures answered { Answers (P.meaning self.old.policy (content self.old.station.table)) self.old.station self.new.station (release task) (release_told result) }
    {
        self.station.release(task)
    }

    // The job runs for the tick that has passed. That the front is the first job of its line is asked, and is no ghost field of `Front`: it names the run's lines, which the front does not hold.
    fn serve(&mut self, front: Front, done: bool) -> Ticked
        requires { Fronted (content self.old.station.table) (board self.old.station.lines) front }
        ensures policy { self.new.policy ≡ self.old.policy }
        ensures table { self.new.station.table ≡ self.old.station.table }
        ensures time { self.new.station.time ≡ self.old.station.time }
        ensures moves { (p : Pending) (ps : List Pending) → (board self.old.station.lines front.task).waiting ≡ p ∷ ps → Moves (content self.old.station.table) self.old.station.time (board self.old.station.lines) (board self.new.station.lines) self.old.station.stage self.new.station.stage front.task (ends_now (task_at (content self.old.station.table) front.task) done p) p ps result }
    {
        if front.line.is_over(front.known, done) {
            self.station.finish(front)
        } else {
            self.station.go_on(front)
        }
    }

    // A tick for the first job of the chosen task; an idle one where there is none.
    fn advance(&mut self, chosen: Option<usize>, done: bool) -> Ticked
        requires { self.old.station.time < 4000000000 }
        ensures policy { self.new.policy ≡ self.old.policy }
        ensures table { self.new.station.table ≡ self.old.station.table }
        ensures time { self.new.station.time ≡ self.old.station.time + 1 }
        ensures moved { Advanced (content self.old.station.table) (self.old.station.time + 1) (board self.old.station.lines) (board self.new.station.lines) self.old.station.stage self.new.station.stage chosen done result }
    {
        self.station.pass();
        let Some(front) = self.station.front(chosen) else {
            return self.station.idle();
        };
        self.serve(front, done)
    }

    /// One tick: the job to run runs, and finishes with its C-th tick or where `done` is given; idle where none waits.
    /// Refused, with the run as it was, at time 4,000,000,000.
    pub fn tick(&mut self, done: bool) -> Result<Ticked, Refusal>
        ensures policy { self.new.policy ≡ self.old.policy }
        ensures table { self.new.station.table ≡ self.old.station.table }
        ensures refused { OnErr result (self.new ≡ self.old) }
        ensures answered { Answers (P.meaning self.old.policy (content self.old.station.table)) self.old.station self.new.station (tick done) (tick_told result) }
    {
        if self.station.is_over() {
            return Err(Refusal::TimeOver);
        }
        let chosen = pick(&self.policy, &self.station);
        Ok(self.advance(chosen, done))
    }

    /// The counts of this task; refused where the table has no such task.
    pub fn look(&self, task: usize) -> Result<Counts, Refusal>
        ensures { Answers (P.meaning self.now.policy (content self.now.station.table)) self.now.station self.now.station (look task) (look_told result) }
    {
        self.station.look(task)
    }

    /// The release of the oldest waiting job of this task, if one waits; refused where the table has no such task.
    pub fn oldest(&self, task: usize) -> Result<Option<u32>, Refusal>
        ensures { Oldest (P.meaning self.now.policy (content self.now.station.table)) self.now.station task result }
    {
        self.station.oldest(task)
    }

    /// Makes this call: the same as `release`, `tick` or `look`.
    /// Refused, with the run as it was, where that method refuses it.
    pub fn call(&mut self, call: Event) -> Result<Reply, Refusal>
        ensures policy { self.new.policy ≡ self.old.policy }
        ensures table { self.new.station.table ≡ self.old.station.table }
        ensures refused { OnErr result (self.new ≡ self.old) }
        ensures answered { Answers (P.meaning self.old.policy (content self.old.station.table)) self.old.station self.new.station (call_of call) (reply_told result) }
    {
        match call {
            Event::Release { task } => self.release(task).map(|time| Reply::Released { time }),
            Event::Tick { done } => self.tick(done).map(|what| Reply::Ticked { what }),
            Event::Look { task } => self.look(task).map(|counts| Reply::Looked { counts }),
        }
    }
}

#[cfg(test)]
mod clock_end;
