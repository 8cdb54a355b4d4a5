//! Hosts of all epochs over shared disks: what they do is one log without an end.
#![tactic(auto)]

mod law;

pub use law::{deeds_are_shared, hosts_have_one_log, nobody_gets_ahead, order_is_kept};
