//! What a run has begun, and the first job of a line.
ghost use Rattle.std.specs.Prelude.{◌≡◌};
ghost use Rattle.dispatch.specs.Leading.{head_job};

use policy::Job;

/// Whether a job is begun that may not be displaced, and of which task.
/// An enum of the run's own and no Option, as was asked for: a tick matches it together with its event and changes it in place.
#[derive(Clone, Copy)]
pub enum Stage {
    Idle,
    Begun { task: usize },
}

/// The oldest waiting job of a task.
#[derive(Clone, Copy)]
pub struct Head {
    pub task: usize,
    pub release: u32,
}

impl From<Head> for Job {
    ghost from_gives = { λ head job. job ≡ head_job head };

    fn from(head: Head) -> Job {
        Job {
            task: head.task,
            release: i64::from(head.release),
        }
    }
}

/// What became of the job that a tick ran.
#[derive(Clone, Copy)]
pub enum Outcome {
    /// There was none.
    Idled,
    /// It is not finished.
    Went { task: usize },
    Ended,
}
