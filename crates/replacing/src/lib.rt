//! A lost image that the tool replaced is a disk that hosts of all epochs may go on with.
#![tactic(auto)]

mod law;

pub use law::{folders_have_one_log, replaced_disks_go_on, replacements_are_steps};
