//! One host over all epochs: its log has no end, since it carries the lock table from each epoch that is full over into the next one.
#![tactic(auto)]

mod answer;
mod carried;
mod epoch_host;
mod over;
mod place;
mod stay;
mod task;
mod walk;

pub use answer::EpochAnswer;
pub use epoch_host::EpochHost;
pub use place::EPOCHS;
pub use task::EpochTask;
