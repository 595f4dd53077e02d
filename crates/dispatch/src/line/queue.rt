//! What happens to a line.
ghost use Rattle.std.specs.Prelude.{◌≡◌, ℕ, ◌+◌, ◌-◌, ◌<◌, ◌≤◌, true, false, ltb, List, ◌∷◌, if◌then◌else◌, OnSome, nat_le, nat_lt};
ghost use Rattle.table.specs.Content.{sporadic};
ghost use Rattle.table.specs.Sporadic.{Sporadic};
ghost use Rattle.dispatch.specs.Lines.{line_summary};
ghost use Rattle.dispatch.specs.Leading.{first_release};
ghost use Rattle.dispatch.specs.Summaries.{Pending, no_summary, joined, moved, ends_now};

use super::Line;
use crate::replies::Counts;
use table::Task;

// A line is full with this many waiting jobs.
const LONGEST_LINE: usize = 8;

// 1 where this response exceeds the deadline.
fn missed_by(task: Task, response: u32) -> u32
    ensures value { result ≡ (if ltb task.deadline response then 1 else 0) }
    ensures small { result ≤ 1 }
{
    u32::from(task.deadline < response)
}

impl Line {
    // A line in which no job ever waited.
    pub(crate) fn new() -> Line
        ensures { line_summary result ≡ no_summary }
    {
        Line {
            releases: [0; 8],
            len: 0,
            free: 0,
            finished: 0,
            missed: 0,
            longest: 0,
            ran: 0,
        }
    }

    // The release of the oldest waiting job.
    pub(crate) fn first(self) -> Option<u32>
        ensures value { result ≡ first_release (line_summary self).waiting }
        ensures some { OnSome result (1 ≤ self.len) }
    {
        (self.len > 0).then_some(self.releases[0])
    }

    // Whether a release at this time comes too soon.
    pub(crate) fn is_soon(self, time: u32) -> bool
        ensures { result ≡ nat_lt time (line_summary self).free }
    {
        time < self.free
    }

    pub(crate) fn is_full(self) -> bool
        ensures { result ≡ nat_le 8 self.len }
    {
        self.len >= LONGEST_LINE
    }

    // The line after a release at this time.
    pub(crate) fn push(mut self, time: u32, task: Task) -> Line
        requires room { self.len < 8 }
        requires free { self.free ≤ time }
        requires clock { time ≤ 4000000000 }
        requires low { 1 ≤ task.period }
        requires high { task.period ≤ 65535 }
        ensures { line_summary result ≡ joined (sporadic task) time (line_summary self) }
    {
        self.releases[self.len] = time;
        self.len += 1;
        self.free = time + task.period;
        self
    }

    // Whether the oldest waiting job finishes with its next tick.
    pub(crate) fn is_over(self, task: Task, done: bool) -> bool
        ensures value { (p : Pending) (ps : List Pending) → (line_summary self).waiting ≡ p ∷ ps → result ≡ ends_now (sporadic task) done p }
        ensures short { result ≡ false → self.ran + 1 < task.cost }
    {
        done | (task.cost <= self.ran + 1)
    }

    // The line after a tick that does not finish its oldest job.
    pub(crate) fn go_on(mut self) -> Line
        requires some { 1 ≤ self.len }
        requires short { self.ran < 4096 }
        ensures { (p : Pending) (ps : List Pending) (t : Sporadic) (later : ℕ) → (line_summary self).waiting ≡ p ∷ ps → line_summary result ≡ moved t false later p ps (line_summary self) }
    {
        self.ran += 1;
        self
    }

    // The line after the tick that finishes its oldest job and brings the time to `later`.
    pub(crate) fn finish(mut self, later: u32, task: Task) -> Line
        requires some { 1 ≤ self.len }
        ensures { (p : Pending) (ps : List Pending) → (line_summary self).waiting ≡ p ∷ ps → line_summary result ≡ moved (sporadic task) true later p ps (line_summary self) }
    {
        let [a, b, c, d, e, f, g, h] = self.releases;
        let response = later.saturating_sub(a);
        let late = missed_by(task, response);
        self.releases = [b, c, d, e, f, g, h, 0];
        self.len -= 1;
        self.finished += 1;
        self.missed += late;
        self.longest = self.longest.max(response);
        self.ran = 0;
        self
    }

    pub(crate) fn counts(self) -> Counts
        ensures accepted { result.accepted ≡ self.finished + self.len }
        ensures finished { result.finished ≡ self.finished }
        ensures waiting { result.waiting ≡ self.len }
        ensures missed { result.missed ≡ self.missed }
        ensures longest { result.longest ≡ self.longest }
    {
        let waiting = self.len as u32;
        Counts {
            accepted: self.finished + waiting,
            finished: self.finished,
            waiting,
            missed: self.missed,
            longest: self.longest,
        }
    }
}
