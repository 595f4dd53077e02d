//! What a run answers, as plain numbers.
ghost use Rattle.std.specs.Prelude.{◌≡◌};
ghost use Rattle.dispatch.specs.Replies.{reply_told};
ghost use Rattle.capi.specs.Steps.{reply_of};

use crate::outcome::detail;
use crate::steps::Reply;
use dispatch::Ticked;
use table::Refusal;

// An answer of this kind with up to three numbers. The kinds are numbers, as C takes them.
fn told(kind: u32, first: usize, second: usize, third: usize) -> Reply
    ensures { result ≡ record { kind = kind; first = first; second = second; third = third; fourth = 0; fifth = 0 } }
{
    Reply {
        kind,
        first,
        second,
        third,
        fourth: 0,
        fifth: 0,
    }
}

/// An answer as C has it.
impl From<Result<dispatch::Reply, Refusal>> for Reply {
    ghost from_gives = { λ given reply. reply ≡ reply_of (reply_told given) };

    // One match down to the job: with a match of what a tick did inside it, a tick misses its bar of speed.
    fn from(given: Result<dispatch::Reply, Refusal>) -> Reply {
        match given {
            Ok(dispatch::Reply::Released { time }) => told(1, time as usize, 0, 0),
            Ok(dispatch::Reply::Ticked { what: Ticked::Idle }) => told(2, 0, 0, 0),
            Ok(
                dispatch::Reply::Ticked {
                    what: Ticked::Ran { task, release },
                },
            ) => told(3, task, release as usize, 0),
            Ok(
                dispatch::Reply::Ticked {
                    what: Ticked::Finished {
                        task,
                        release,
                        response,
                    },
                },
            ) => told(4, task, release as usize, response as usize),
            Ok(dispatch::Reply::Looked { counts }) => Reply {
                kind: 5,
                first: counts.accepted as usize,
                second: counts.finished as usize,
                third: counts.waiting as usize,
                fourth: counts.missed as usize,
                fifth: counts.longest as usize,
            },
            Err(why) => told(0, usize::from(why.number()), detail(why), 0),
        }
    }
}
