//! One attempt of Disk Paxos on a slot, call by call: a machine that asks for device calls and hears their answers.
#![tactic(auto)]

mod end;
mod one_attempt;
mod phase;
mod setup;
mod visit;

pub use end::End;
pub use one_attempt::Attempt;
