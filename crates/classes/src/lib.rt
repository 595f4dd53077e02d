//! A policy from outside `policy`: tasks in classes, and within a class the earlier release plus an offset first.
#![tactic(auto)]

ghost use Rattle.std.specs.Prelude.{◌≡◌, true, pos, ◌+ℤ◌};
ghost use Rattle.policy.specs.Answers.{on_clock};
ghost use Rattle.policy.specs.Orders.{key_reach};
ghost use Rattle.classes.specs.ClassOrder.{classes_of, offsets_of, number_at, offset_at, class_order};
ghost use Rattle.classes.specs.ByClass.{class_total, class_transitive, class_earlier, class_range, class_rule};
ghost use Rattle.std.proofs.Math.Nat.{min-le_left};

use policy::compare::{comparable, settled_reach};
use policy::{Job, Policy, Reach};
use table::{MOST_TASKS, Table};

// With offsets up to this no reach goes beyond 100,000 ticks.
const LARGEST_OFFSET: u32 = 99_999;

/// What a task is under the policy.
#[derive(Clone, Copy, Debug, Default, PartialEq, Eq)]
pub struct Member {
    /// The lower class is always ahead.
    pub class: u32,
    /// Added to a release, within a class.
    pub offset: u32,
}

/// Each task has a class and an offset. The lower class is always ahead; within a class the smaller release plus offset is, and a tie goes to the lower task number.
#[derive(Clone, Copy)]
pub struct Classes {
    members: [Member; MOST_TASKS],
}

impl Classes {
    /// A member for each task number. An offset above 99,999 counts as 99,999.
    pub fn new(members: [Member; MOST_TASKS]) -> Classes
        ensures classes { classes_of result.members ≡ classes_of members }
        ensures offsets { offsets_of result.members ≡ offsets_of members }
    {
        Classes { members }
    }

    /// The class of a task; 0 for a task number above 23.
    pub fn class(&self, task: usize) -> u32
        ensures { result ≡ number_at (classes_of self.now.members) task }
    {
        self.members.get(task).map_or(0, |member| member.class)
    }

    /// The offset of a task, at most 99,999; 0 for a task number above 23.
    pub fn offset(&self, task: usize) -> u32
        ensures { result ≡ offset_at (offsets_of self.now.members) task }
    {
        self.members
            .get(task)
            .map_or(0, |member| member.offset.min(LARGEST_OFFSET))
    }

    // `key` and `reach_within` repeat `policy::keys`, which is private: its reach requires numbers up to 65,535, offsets here reach 99,999, and a public function requires nothing.
    fn key(&self, job: Job) -> i64
        requires { on_clock job.release ≡ true }
        ensures { result ≡ job.release +ℤ pos (offset_at (offsets_of self.now.members) job.task) }
    {
        job.release + i64::from(self.offset(job.task))
    }

    // Of two jobs the one with the smaller place is ahead.
    fn place(&self, job: Job) -> (u32, i64, usize)
        requires { on_clock job.release ≡ true }
        ensures { result ≡ (number_at (classes_of self.now.members) job.task, job.release +ℤ pos (offset_at (offsets_of self.now.members) job.task), job.task) }
    {
        (self.class(job.task), self.key(job), job.task)
    }

    fn reach_within(&self, from: usize, to: usize) -> i32
        ensures { result ≡ key_reach from (offset_at (offsets_of self.now.members) from) to (offset_at (offsets_of self.now.members) to) }
    {
        let tie = i32::from(from < to);
        self.offset(from) as i32 - self.offset(to) as i32 - tie
    }
}

impl Policy for Classes {
    ghost meaning = { λ p _. class_order (number_at (classes_of p.members)) (offset_at (offsets_of p.members)) };

    ghost total = { λ p s checked. class_total s (number_at (classes_of p.members)) (offset_at (offsets_of p.members)) };

    ghost transitive = { λ p s checked. class_transitive s (number_at (classes_of p.members)) (offset_at (offsets_of p.members)) };

    ghost earlier = { λ p s checked. class_earlier s (number_at (classes_of p.members)) (offset_at (offsets_of p.members)) };

    ghost range = { λ p s checked. class_range s (number_at (classes_of p.members)) (offset_at (offsets_of p.members)) (λ i. min-le_left 99999 (number_at (offsets_of p.members) i)) };

    ghost rule = { λ p s checked. class_rule s (number_at (classes_of p.members)) (offset_at (offsets_of p.members)) };

    fn ahead(&self, table: &Table, first: Job, second: Job) -> bool {
        comparable(table, first, second) && self.place(first) < self.place(second)
    }

    fn reach(&self, table: &Table, from: usize, to: usize) -> Reach {
        let mine = self.class(from);
        let other = self.class(to);
        let asked = if other < mine {
            Reach::Always
        } else if mine < other {
            Reach::Never
        } else {
            Reach::Within(self.reach_within(from, to))
        };
        settled_reach(table, from, to, asked)
    }
}
