//! Ordering policies: what a policy is, the shipped ones, and bands of any two.
#![tactic(auto)]

pub mod arrival;
pub mod bands;
pub mod by_code;
pub mod compare;
pub mod deadline;
pub mod fixed;
pub mod job;
mod keys;
pub mod laws;
pub mod ordering;
pub mod pile;
#[cfg(test)]
mod tests;

pub use arrival::Arrival;
pub use bands::Bands;
pub use by_code::ByCode;
pub use deadline::Deadline;
pub use fixed::Fixed;
pub use job::{Job, Reach};
pub use laws::laws_hold;
pub use ordering::Policy;
pub use pile::pile_ahead;
