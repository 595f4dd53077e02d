//! Reading a whole file into a table.
ghost use Rattle.std.specs.Prelude.{◌≡◌, true, [], map, length, Ok, Err, MatchResult};
ghost use Rattle.table.specs.Content.{sporadic};
ghost use Rattle.table.specs.Model.{content};
ghost use Rattle.table.specs.Sporadic.{name_in_range};
ghost use Rattle.table.specs.Rules.{TaskSet};
ghost use Rattle.tablefile.specs.Layout.{LaysOut};
ghost use Rattle.tablefile.specs.Format.{tasks_at, file};
ghost use Rattle.tablefile.specs.Handed.{task_said};

use crate::reader::Reader;
use crate::records::TaskFields;
use table::{MOST_TASKS, Name, Refusal, Table, Task};

// The task of these fields. No `From`, as the name has to be in range.
fn stored(fields: TaskFields) -> Task
    requires { name_in_range fields.name.now ≡ true }
    ensures { sporadic result ≡ task_said fields.entry }
{
    Task {
        cost: fields.cost,
        period: fields.period,
        deadline: fields.deadline,
        rank: fields.rank,
        name: Name::new(fields.name).unwrap(),
    }
}

// Fills the room with the tasks behind the header, and reads the end. By index, as each task is read against those
// stored before it.
fn read_tasks(reader: &mut Reader, room: &mut [Task]) -> Result<(), Refusal>
    ensures { MatchResult result (λ _. tasks_at reader.old.src.now (length room.old) (length room.old) [] reader.old.pos ≡ Ok (map sporadic room.new)) (λ why. tasks_at reader.old.src.now (length room.old) (length room.old) [] reader.old.pos ≡ Err why) }
{
    let count = room.len();
    for at in 0..count {
        let fields = reader.read_task(count, &room[..at])?;
        room[at] = stored(fields);
    }
    reader.read_end()
}

// The table that the whole input says. What was read keeps the rules, so `Table::new` finds none broken.
fn table_of(bytes: &[u8]) -> Result<Table, Refusal>
    ensures { MatchResult result (λ table. file bytes.now ≡ Ok (content table)) (λ why. file bytes.now ≡ Err why) }
{
    let mut reader = Reader::new(bytes);
    let header = reader.read_header()?;
    let mut room = [Task::fresh(); MOST_TASKS];
    let tasks = &mut room[..header.count];
    read_tasks(&mut reader, tasks)?;
    Ok(Table::new(header.policy, header.mode, header.band, tasks).unwrap())
}

/// Fills the place with the table that the file says; a refusal leaves the place as it was.
/// Accepts the layouts of lawful tables, each as its table, and nothing else.
pub fn read_table(bytes: &[u8], place: &mut Table) -> Result<(), Refusal>
    ensures format { MatchResult result (λ _. file bytes.now ≡ Ok (content place.new)) (λ why. (file bytes.now ≡ Err why) × (place.new ≡ place.old)) }
    ensures only { (s : TaskSet) → (result ≡ Ok tt) × (content place.new ≡ s) → LaysOut bytes.now s }
    ensures each { (s : TaskSet) → LaysOut bytes.now s → (result ≡ Ok tt) × (content place.new ≡ s) }
{
    *place = table_of(bytes)?;
    Ok(())
}
