//! Worst courses: which task releases at which tick, so that a job takes as long as it can.
#![tactic(auto)]

pub mod course;
pub mod lead;
pub mod told;

pub use course::Course;
pub use lead::Lead;
pub use lead::blocking::{OFFSET_LIMIT, worst_course_lead};
pub use told::worst_course;
