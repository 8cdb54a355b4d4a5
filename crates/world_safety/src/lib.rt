//! Why every list of events has one log, and nothing that was acknowledged is lost.
#![tactic(auto)]

mod law;

pub use law::{
    ballots_agree, majorities_answer, marks_are_true, one_log_and_nothing_lost,
    recoveries_miss_nothing, renewals_go_on,
};
