//! Logs without an end: the log of an epoch begins with what carries over the table that the epoch before left.
#![tactic(auto)]

mod examples;
mod law;

pub use examples::two_epochs_follow;
pub use law::{endless_headline, epochs_go_on, one_log_without_end, recoveries_are_of_the_last};
