//! The judgement: response-time analysis of a checked table under any policy.
#![tactic(auto)]

pub mod busy;
pub mod judging;
pub mod lanes;
pub mod rows;
mod shown;
pub mod window;

ghost use Rattle.analysis.specs.Judged.{Judged};

pub use busy::{LONGEST_BUSY_PERIOD, busy_period};
pub use judging::{analyse_task, judge};
pub use rows::{Judgement, Row, Verdict};
