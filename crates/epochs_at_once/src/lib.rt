//! Hosts of all epochs over the same disks, whose device calls each take effect at one moment: what they tell goes by one log without an end.
#![tactic(auto)]

mod law;

pub use law::{
    calls_made_at_once_go, disks_serve_deeds, hosts_at_once_have_one_log,
    images_are_disks_behind_headers, tasks_are_deeds,
};
