//! Calls of a run and their answers as plain numbers: the kinds are numbers, as C takes them.
ghost use Rattle.std.specs.Prelude.{◌≡◌};
ghost use Rattle.dispatch.specs.Replies as replies;
ghost use Rattle.capi.specs.Steps.{call_of};

use dispatch::Event;

/// A call. Kind 0 is a release of the task, 1 a tick, 2 a tick with done, any other a look at the task.
#[repr(C)]
#[derive(Clone, Copy)]
pub struct Call {
    pub kind: u32,
    pub task: usize,
}

/// A call as a run takes it.
impl From<Call> for Event {
    ghost from_gives = { λ call event. replies.call_of event ≡ call_of call };

    fn from(call: Call) -> Event {
        match call.kind {
            0 => Event::Release { task: call.task },
            1 | 2 => Event::Tick {
                done: call.kind == 2,
            },
            _ => Event::Look { task: call.task },
        }
    }
}

/// An answer; numbers that are not named here are 0.
/// Kind 0 is a refusal: its number, its task. 1 released: the time. 2 idle. 3 ran: task, release. 4 finished: task, release, response. 5 looked: accepted, finished, waiting, missed, longest.
#[repr(C)]
#[derive(Clone, Copy)]
pub struct Reply {
    pub kind: u32,
    pub first: usize,
    pub second: usize,
    pub third: usize,
    pub fourth: usize,
    pub fifth: usize,
}

/// A call, and the place for its answer.
#[repr(C)]
#[derive(Clone, Copy)]
pub struct Step {
    pub call: Call,
    pub reply: Reply,
}
