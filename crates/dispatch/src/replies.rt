//! What a run is asked and what it answers.
use table::Refusal;

/// What a tick did.
#[derive(Clone, Copy, Debug, PartialEq, Eq)]
pub enum Ticked {
    /// No job waited.
    Idle,
    /// This job ran and is not finished.
    Ran {
        task: usize,
        release: u32,
    },
    /// This job ran and finished, this long after its release.
    Finished {
        task: usize,
        release: u32,
        response: u32,
    },
}

/// The counts of one task.
#[derive(Clone, Copy, Debug, PartialEq, Eq)]
pub struct Counts {
    /// Releases that were not refused.
    pub accepted: u32,
    /// Jobs that are finished.
    pub finished: u32,
    /// Jobs that are not, a begun one included: 0 to 8.
    pub waiting: u32,
    /// Finished jobs whose response exceeded the deadline.
    pub missed: u32,
    /// The longest response of a finished job; 0 where there is none.
    pub longest: u32,
}

/// A call of a run.
#[derive(Clone, Copy, Debug, PartialEq, Eq)]
pub enum Event {
    /// A job of this task is released now.
    Release { task: usize },
    /// One tick passes; with `done` the job that runs ends with it.
    Tick { done: bool },
    /// The counts of this task are asked for.
    Look { task: usize },
}

/// The answer to a call that is not refused.
#[derive(Clone, Copy, Debug, PartialEq, Eq)]
pub enum Reply {
    /// The time of the release.
    Released { time: u32 },
    /// What the tick did.
    Ticked { what: Ticked },
    /// The counts that were asked for.
    Looked { counts: Counts },
}

/// A call, and the place for its answer.
#[derive(Clone, Copy, Debug, PartialEq, Eq)]
pub struct Step {
    /// What is asked.
    pub call: Event,
    /// What was answered, or the refusal of a call that changed nothing; anything before the call is made.
    pub answer: Result<Reply, Refusal>,
}
