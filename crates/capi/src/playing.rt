//! Playing a list of calls on a fresh run of a table file.
ghost use Rattle.std.specs.Prelude.{◌≡◌};
ghost use Rattle.table.specs.Model.{content};
ghost use Rattle.theory.specs.Machine.{answers, start};
ghost use Rattle.policy.specs.Chosen.{chosen_order};
ghost use Rattle.capi.specs.Played.{Played, PlayedFile, PlayedTold};

use crate::outcome::Outcome;
use crate::steps::{Reply, Step};
use dispatch::{Event, Run};
use policy::{Arrival, Bands, Deadline, Fixed, Policy};
use table::{PolicyCode, Refusal, Table};
use tablefile::read_table;

// Makes the calls of these steps on a fresh run, in their order.
fn play<P: Policy + Drop>(policy: P, table: &Table, steps: &mut [Step])
    ensures { Played (content table.now) (P.meaning policy (content table.now)) steps.old steps.new }
{
    let mut run = Run::new(policy, table);
    // The same two lines as in `dispatch::replay`, with steps laid out for C.
    for step in steps.iter_mut() {
        step.reply = Reply::from(run.call(Event::from(step.call)));
    }
}

// Under the policy that the table's code asks for. A match and not `ByCode`, with which a tick in which no job waits takes 1.31 times what
// plain Rust takes, over its bar of 1.3.
fn play_by_code(table: &Table, steps: &mut [Step])
    ensures { Played (content table.now) (chosen_order (content table.now)) steps.old steps.new }
{
    match table.policy() {
        PolicyCode::Fixed => play(Fixed, table, steps),
        PolicyCode::Deadline => play(Deadline, table, steps),
        PolicyCode::Arrival => play(Arrival, table, steps),
        PolicyCode::Bands => play(Bands::new(table.band(), Fixed, Deadline), table, steps),
    }
}

fn play_file(file: &[u8], steps: &mut [Step]) -> Result<usize, Refusal>
    ensures { PlayedFile file.now steps.old steps.new result }
{
    let mut table = Table::fresh();
    read_table(file, &mut table)?;
    play_by_code(&table, steps);
    Ok(steps.len())
}

/// Makes the calls of these steps on a fresh run of a table file, in their order, writes the answer to each beside it, and answers how many there are.
/// A refusal leaves the steps as they were.
#[unsafe(no_mangle)]
pub extern "C" fn station_play(file: &[u8], steps: &mut [Step]) -> Outcome
    ensures { PlayedTold file.now steps.old steps.new result }
{
    Outcome::from(play_file(file, steps))
}
