//! What the records of a table file say.
use table::{Mode, PolicyCode};

/// What a header says.
#[derive(Clone, Copy, Debug, PartialEq, Eq)]
pub struct HeaderFields {
    /// The policy that the table asks for.
    pub policy: PolicyCode,
    /// Whether a begun job may be displaced.
    pub mode: Mode,
    /// How many tasks follow: 1 to 24.
    pub count: usize,
    /// How many tasks are in the first band; 0 unless the policy is Bands.
    pub band: usize,
}

/// What a task record says; its name is a part of the input.
#[derive(Clone, Copy, Debug, PartialEq, Eq)]
pub struct TaskFields<'a> {
    /// C.
    pub cost: u32,
    /// T.
    pub period: u32,
    /// D.
    pub deadline: u32,
    /// The fixed priority: 1 to the number of tasks, and not that of an earlier record.
    pub rank: u8,
    /// 1 to 8 of A-Z and 0-9, in the input itself.
    pub name: &'a [u8],
}

/// A record of a table file, as a reader hands it out.
#[derive(Clone, Copy, Debug, PartialEq, Eq)]
pub enum Record<'a> {
    /// The first record.
    Header(HeaderFields),
    /// One for each task that the header counts.
    Task(TaskFields<'a>),
    /// The last record; nothing follows it.
    End,
}
