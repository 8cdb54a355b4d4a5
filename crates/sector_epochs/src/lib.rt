//! Hosts of all epochs on several machines over the same devices of sectors: what they tell goes by one log without an end.
#![tactic(auto)]

mod law;

pub use law::{
    devices_have_one_log_without_an_end, devices_serve_all_epochs, hosts_write_their_own,
};
