//! Worst courses played on a run: what a judgement promises, seen happen.
#![tactic(auto)]

mod drawing;
pub mod judged;
pub mod misses;
mod playing;
mod seeking;
pub mod timeline;
pub mod worst;

pub use judged::judged_replay;
pub use misses::{Miss, first_miss};
pub use timeline::draw_worst_course;
pub use worst::play_worst_course;
