//! Jobs, and how far one task reaches before another.

/// One release of a task: the task's number and the tick of the release.
#[derive(Clone, Copy, Debug, PartialEq, Eq)]
pub struct Job {
    /// Counted from 0, in table order.
    pub task: usize,
    /// May be negative; the calls of a policy answer for -1 to 4,000,000,000.
    pub release: i64,
}

/// How late a job of another task may be released and still be ahead of a job of this one.
#[derive(Clone, Copy, Debug, PartialEq, Eq)]
pub enum Reach {
    /// Whenever it is released.
    Always,
    /// Never ahead.
    Never,
    /// Up to this many ticks after the release of this job (before it, where the number is negative).
    Within(i32),
}
