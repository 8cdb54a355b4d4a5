//! Attempts as runs of the machine of agreement: why all that they choose for a slot is one value.
#![tactic(auto)]

mod law;

pub use law::{
    answers_lead, answers_move, attempt_begins, attempts_agree, blocks_outlast_attempts,
    others_leave_it, torn_writes_begin, what_is_chosen,
};
