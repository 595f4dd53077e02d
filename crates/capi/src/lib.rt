//! The planner for callers in C and Rust: a table file in, plain numbers out. Memory is lent by the caller; nothing is allocated.
#![tactic(auto)]

pub mod files;
pub mod finding;
pub mod outcome;
pub mod playing;
pub mod replies;
pub mod steps;

pub use files::{station_judge, station_plan};
pub use finding::Finding;
pub use outcome::Outcome;
pub use playing::station_play;
pub use steps::{Call, Reply, Step};
