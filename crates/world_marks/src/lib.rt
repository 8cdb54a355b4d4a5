//! Why marks last, and why looks find them.
#![tactic(auto)]

mod law;

pub use law::{marks_are_found, marks_last};
