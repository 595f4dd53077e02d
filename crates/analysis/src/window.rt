//! The window of one task: its own work, its response at each offset, and the worst of them.
ghost use Rattle.std.specs.Prelude.{◌≤◌};

use table::Mode;

/// The analysed task: its C and T, and the mode of its table.
#[derive(Clone, Copy)]
pub struct Own {
    /// The mode of the table.
    pub mode: Mode,
    /// C.
    pub cost: u32,
    /// T.
    pub period: u32,
    ghost cost_low: { 1 ≤ cost },
    ghost cost_high: { cost ≤ 4096 },
    ghost period_low: { 1 ≤ period },
}

pub(crate) mod offsets;
