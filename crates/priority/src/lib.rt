//! Priority assignment: an order of the tasks of a table by fixed priorities in which all meet their deadlines, if there is one.
#![tactic(auto)]

pub mod assigning;
pub mod facts;
mod ranking;
#[cfg(test)]
mod tests;

pub use assigning::assign_priorities;
pub use facts::assignment_is_unique;
