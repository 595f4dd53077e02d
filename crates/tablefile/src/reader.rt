//! The records of a file, one by one.
ghost use Rattle.std.specs.Prelude.{◌≡◌, ◌≤◌, map, length};
ghost use Rattle.table.specs.Content.{sporadic};
ghost use Rattle.tablefile.specs.Handed.{next_header, next_task, next_end, handed, behind};

use crate::records::Record;
use table::{Refusal, Task};

/// A place in the bytes of a file, at which the next record is asked for.
#[derive(Clone, Copy)]
pub struct Reader<'a> {
    src: &'a [u8],
    pos: usize,
    ghost inside: { pos ≤ length src.now },
}

mod fields;
mod records;

impl<'a> Reader<'a> {
    /// A reader at the first byte.
    pub fn new(src: &'a [u8]) -> Reader<'a>
        ensures input { result.src.now ≡ src.now }
        ensures place { result.pos ≡ 0 }
    {
        Reader { src, pos: 0 }
    }

    /// The header at this place; a refusal does not move the reader.
    pub fn header(&mut self) -> Result<Record<'a>, Refusal>
        ensures given { handed result ≡ next_header self.old.src.now self.old.pos }
        ensures place { self.new.pos ≡ behind self.old.pos (handed result) }
        ensures input { self.new.src ≡ self.old.src }
    {
        let mut ahead = *self;
        let header = ahead.read_header()?;
        *self = ahead;
        Ok(Record::Header(header))
    }

    /// The next of `count` tasks, behind these; a refusal does not move the reader.
    pub fn task(&mut self, count: usize, earlier: &[Task]) -> Result<Record<'a>, Refusal>
        ensures given { handed result ≡ next_task self.old.src.now self.old.pos count (map sporadic earlier.now) }
        ensures place { self.new.pos ≡ behind self.old.pos (handed result) }
        ensures input { self.new.src ≡ self.old.src }
    {
        let mut ahead = *self;
        let task = ahead.read_task(count, earlier)?;
        *self = ahead;
        Ok(Record::Task(task))
    }

    /// The end at this place, where nothing follows it; a refusal does not move the reader.
    pub fn end(&mut self) -> Result<Record<'a>, Refusal>
        ensures given { handed result ≡ next_end self.old.src.now self.old.pos }
        ensures place { self.new.pos ≡ behind self.old.pos (handed result) }
        ensures input { self.new.src ≡ self.old.src }
    {
        let mut ahead = *self;
        ahead.read_end()?;
        *self = ahead;
        Ok(Record::End)
    }
}
