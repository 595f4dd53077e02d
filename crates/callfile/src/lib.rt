//! A list of calls as a text: one character a call.
#![tactic(auto)]

ghost use Rattle.std.specs.Prelude.{◌≡◌, min, length};
ghost use Rattle.callfile.specs.Said.{call_said, calls_said, laid_over};

use dispatch::{Event, Reply, Step, Ticked};

// The call that a byte says. No `TryFrom`: byte and call are types of other crates.
fn call_of(byte: u8) -> Option<Event>
    ensures { result ≡ call_said byte }
{
    match byte {
        b'A'..=b'Z' => Some(Event::Release {
            task: usize::from(byte - b'A'),
        }),
        b'a'..=b'z' => Some(Event::Look {
            task: usize::from(byte - b'a'),
        }),
        b'.' => Some(Event::Tick { done: false }),
        b'!' => Some(Event::Tick { done: true }),
        _ => None,
    }
}

/// Writes the calls that a text says into the first steps, and answers how many it wrote; calls that find no step are passed over, and further steps stay as they were.
/// `A` to `Z` release tasks 0 to 25, `a` to `z` look at them, `.` is a tick and `!` a tick with done; every other byte says nothing.
pub fn read_calls(text: &[u8], steps: &mut [Step]) -> usize
    ensures steps { steps.new ≡ laid_over (calls_said text.now) steps.old }
    ensures count { result ≡ min (length (calls_said text.now)) (length steps.old) }
{
    let mut calls = text.iter().filter_map(|byte| call_of(*byte));
    for (count, step) in steps.iter_mut().enumerate() {
        let Some(call) = calls.next() else {
            return count;
        };
        let answer = Ok(Reply::Ticked { what: Ticked::Idle });
        *step = Step { call, answer };
    }
    steps.len()
}
