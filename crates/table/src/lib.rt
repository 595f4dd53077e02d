//! The task table: tasks, scheduling mode, policy code, refusals, and the checked table that everything else takes.
#![tactic(auto)]

pub mod checked;
pub mod kinds;
pub mod name;
pub mod refusal;
pub mod task;

pub use checked::Table;
pub use kinds::{Mode, PolicyCode, UnknownCode};
pub use name::Name;
pub use name::letters::is_name_byte;
pub use refusal::{Layer, Refusal};
pub use task::{MOST_TASKS, Task};
