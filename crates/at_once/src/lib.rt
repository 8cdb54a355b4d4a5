//! Hosts over the same images, whose device calls each take effect at one moment: a run of the world.
#![tactic(auto)]

mod beginnings;
mod in_turn;
mod law;

pub use beginnings::{new_disks_are_beginnings, new_files_are_beginnings};
pub use in_turn::{Turns, submit_in_turn};
pub use law::{
    calls_made_at_once_make_a_run, deeds_join_one_log, disks_serve_alone, hosts_in_turn_agree,
    losses_of_power_are_crashes, operations_are_deeds,
};
