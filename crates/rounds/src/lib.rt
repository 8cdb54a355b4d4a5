//! Work over all disks beside attempts, call by call: a heartbeat, the marking of a learned slot, and a look at a slot.
#![tactic(auto)]

pub mod beats;
mod end;
pub mod looks;
pub mod marks;
mod round;

pub use end::End;
pub use round::{Round, Stage};
