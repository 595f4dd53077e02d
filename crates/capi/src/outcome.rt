//! A result as one number beside the number of its refusal.
ghost use Rattle.std.specs.Prelude.{◌≡◌};
ghost use Rattle.capi.specs.Outcomes.{detail_of, outcome_of};

use table::Refusal;

/// What a call answers; plain numbers, as C takes them.
#[repr(C)]
#[derive(Clone, Copy)]
pub struct Outcome {
    /// The number of the refusal, 1 to 15; 0 where there is none.
    pub refusal: u32,
    /// The answer; of a refusal the place, rank or task that goes with it, or 0.
    pub number: usize,
}

// What goes with a refusal.
pub(crate) fn detail(refusal: Refusal) -> usize
    ensures { result ≡ detail_of refusal }
{
    match refusal {
        Refusal::Ended { place }
        | Refusal::WrongMark { place }
        | Refusal::HeaderRange { place }
        | Refusal::TaskRange { place }
        | Refusal::RankTaken { place }
        | Refusal::NameByte { place }
        | Refusal::Trailing { place } => place,
        Refusal::RankUnfilled { rank } => rank,
        Refusal::NoTaskToJudge { task }
        | Refusal::NoTaskToRun { task }
        | Refusal::TooSoon { task }
        | Refusal::QueueFull { task } => task,
        Refusal::FewRows | Refusal::ShortOutput | Refusal::NoBusyPeriod | Refusal::TimeOver => 0,
    }
}

/// A result as C has it.
impl From<Result<usize, Refusal>> for Outcome {
    ghost from_gives = { λ given outcome. outcome ≡ outcome_of given };

    fn from(given: Result<usize, Refusal>) -> Outcome {
        match given {
            Ok(number) => Outcome { refusal: 0, number },
            Err(why) => Outcome {
                refusal: u32::from(why.number()),
                number: detail(why),
            },
        }
    }
}
