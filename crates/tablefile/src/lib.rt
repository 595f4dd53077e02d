//! Table files: the records of a file, one by one, and reading a whole file into a table.
#![tactic(auto)]

pub mod reader;
pub mod records;
pub mod whole;

pub use reader::Reader;
pub use records::{HeaderFields, Record, TaskFields};
pub use whole::read_table;

#[cfg(test)]
mod tests;
