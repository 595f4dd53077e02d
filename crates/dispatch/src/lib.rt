//! The dispatcher: a run of a checked table under any policy, tick by tick.
#![tactic(auto)]

mod front;
mod line;
pub mod replaying;
pub mod replies;
pub mod run;
mod shown;
mod stage;
mod station;
#[cfg(test)]
mod tests;

pub use replaying::replay;
pub use replies::{Counts, Event, Reply, Step, Ticked};
pub use run::Run;
