//! The report of a judgement, written as text into lent bytes.
#![tactic(auto)]

mod lines;
mod page;
pub mod place;
mod refused;
pub mod whole;

pub use place::{put_bytes, put_number};
pub use refused::{REFUSAL_BYTES, put_refusal};
pub use whole::{OUTPUT_BYTES, report};
