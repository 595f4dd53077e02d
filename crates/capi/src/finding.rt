//! A judgement as plain numbers.
ghost use Rattle.std.specs.Prelude.{◌≡◌};
ghost use Rattle.capi.specs.Findings.{finding_of};

use crate::outcome::detail;
use analysis::{Judgement, Verdict};
use table::Refusal;

/// What a judgement answers; plain numbers, as C takes them.
#[repr(C)]
#[derive(Clone, Copy)]
pub struct Finding {
    /// The number of the refusal; 0 where there is none.
    pub refusal: u32,
    /// Whether a task is late.
    pub late: bool,
    /// The busy period; of a refusal the place that goes with it, or 0.
    pub number: usize,
    /// The lowest-numbered task that is late, or 0.
    pub task: usize,
}

/// A judgement as C has it.
impl From<Result<Judgement, Refusal>> for Finding {
    ghost from_gives = { λ given finding. finding ≡ finding_of given };

    fn from(given: Result<Judgement, Refusal>) -> Finding {
        match given {
            Ok(judgement) => {
                let (late, task) = match judgement.verdict {
                    Verdict::Admitted => (false, 0),
                    Verdict::Late { task } => (true, task),
                };
                Finding {
                    refusal: 0,
                    late,
                    number: judgement.busy_period as usize,
                    task,
                }
            }
            Err(why) => Finding {
                refusal: u32::from(why.number()),
                late: false,
                number: detail(why),
                task: 0,
            },
        }
    }
}
