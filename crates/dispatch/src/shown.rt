//! Calls and answers as text. A job is written as its task's number and its release.
ghost use Rattle.std.specs.Prelude.{Some};
ghost use Rattle.dispatch.specs.Shown.{event_text, ticked_text, counts_text, reply_text};

use crate::replies::{Counts, Event, Reply, Ticked};
use std::fmt;

impl fmt::Display for Event {
    ghost output = { λ call. Some (event_text call) };

    fn fmt<W: fmt::Write>(&self, f: &mut fmt::Formatter<W>) -> fmt::Result {
        match self {
            Event::Release { task } => write!(f, "release {task}"),
            Event::Tick { done: false } => write!(f, "tick"),
            Event::Tick { done: true } => write!(f, "tick done"),
            Event::Look { task } => write!(f, "look {task}"),
        }
    }
}

impl fmt::Display for Ticked {
    ghost output = { λ what. Some (ticked_text what) };

    fn fmt<W: fmt::Write>(&self, f: &mut fmt::Formatter<W>) -> fmt::Result {
        match self {
            Ticked::Idle => write!(f, "none"),
            Ticked::Ran { task, release } => write!(f, "{task}@{release} runs"),
            Ticked::Finished {
                task,
                release,
                response,
            } => {
                write!(f, "{task}@{release} finishes")?;
                write!(f, " after {response}")
            }
        }
    }
}

impl fmt::Display for Counts {
    ghost output = { λ counts. Some (counts_text counts) };

    fn fmt<W: fmt::Write>(&self, f: &mut fmt::Formatter<W>) -> fmt::Result {
        write!(
            f,
            "accepted {} finished {} waiting {} missed {} longest {}",
            self.accepted, self.finished, self.waiting, self.missed, self.longest
        )
    }
}

impl fmt::Display for Reply {
    ghost output = { λ reply. Some (reply_text reply) };

    fn fmt<W: fmt::Write>(&self, f: &mut fmt::Formatter<W>) -> fmt::Result {
        match self {
            Reply::Released { time } => write!(f, "at {time}"),
            Reply::Ticked { what } => write!(f, "{what}"),
            Reply::Looked { counts } => write!(f, "{counts}"),
        }
    }
}
