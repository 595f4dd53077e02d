//! What a judgement answers.

/// The worst response of one task, the least offset that gives it, and the task's deadline; laid out as C has it.
#[repr(C)]
#[derive(Clone, Copy, Debug, Default, PartialEq, Eq)]
pub struct Row {
    /// The longest response over all offsets in the busy period.
    pub response: u32,
    /// The least offset that gives it.
    pub offset: u32,
    /// D of the task.
    pub deadline: u32,
}

/// Whether every response is within its deadline.
// Two words and no Option: a `Some` that says late, and a `None` that says admitted, would read as the opposite.
#[derive(Clone, Copy, Debug, PartialEq, Eq)]
pub enum Verdict {
    /// Every task meets its deadline.
    Admitted,
    /// The lowest-numbered task whose response exceeds its deadline.
    Late { task: usize },
}

/// The busy period of the table, and the verdict.
#[derive(Clone, Copy, Debug, PartialEq, Eq)]
pub struct Judgement {
    /// 1 to 60,000 ticks.
    pub busy_period: u32,
    /// Whether every row is within its deadline.
    pub verdict: Verdict,
}
