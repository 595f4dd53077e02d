//! The lead of a worst course, and the task that blocks it.

/// How many ticks a worst course begins early (0 or 1), and which task then releases alone at 0.
#[derive(Clone, Copy, Debug, Default, PartialEq, Eq)]
pub struct Lead {
    /// 1 where a task blocks, else 0. A field, as what releases at a tick is defined by it.
    pub ticks: u32,
    /// The lowest-numbered task that blocks longest; none where none does, as in displacing mode.
    pub blocker: Option<usize>,
}

pub mod blocking;
