//! A host comes to an epoch of a disk, and finds the newest epoch of all disks: machines that ask for device calls and hear their answers.
#![tactic(auto)]

mod coming;
mod end;
mod finding;
mod found;
mod notes;
mod search;

pub use coming::Coming;
pub use end::End;
pub use finding::Finding;
pub use found::{Found, Readings, Standings};
