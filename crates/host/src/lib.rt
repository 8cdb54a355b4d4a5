//! One host: the log that it learns, the lock table after it, and the task that it carries out.
#![tactic(auto)]

mod answer;
mod beside;
mod host_core;
mod task;

pub use answer::HostAnswer;
pub use attempt::Refusal;
pub use host_core::HostCore;
pub use paxos_block::Config;
pub use task::Task;
