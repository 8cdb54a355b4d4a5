//! Why a submission that is left alone, over disks most of which answer, is served.
#![tactic(auto)]

mod law;

pub use law::{alone_attempts_are_served, alone_submissions_are_served, seventeen_calls_are_taken};
