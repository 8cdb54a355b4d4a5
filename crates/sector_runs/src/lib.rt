//! Hosts on several machines over the same devices of sectors: what they do together is done at once, and has one log.
#![tactic(auto)]

mod law;

pub use law::{devices_have_one_log, devices_serve, hosts_write_their_own, touches_are_steps};
