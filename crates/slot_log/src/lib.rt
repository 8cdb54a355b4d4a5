//! The slots of the log in their order: values are learned, placed and recovered by one attempt after the other.
#![tactic(auto)]

mod learner;
mod operation;
mod outcome;

pub use learner::Learner;
pub use outcome::LogOutcome;
