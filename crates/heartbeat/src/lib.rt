//! Heartbeats: the counters of all hosts on a disk, and the host that two readings of them suggest.
#![tactic(auto)]

mod area;
mod suggestion;

pub use area::{Damaged, damaged_beats, decode_area, encode_beat};
pub use suggestion::{Reading, suggest};
