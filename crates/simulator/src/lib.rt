//! A simulated cluster: what every list of events makes of its hosts and disks, and what the hosts answer.
#![tactic(auto)]

mod answer;
mod device_call;
mod migrated;
mod report;
mod room;
mod sim;
mod simulated_cluster;

pub use answer::Answer;
pub use lock_script::{
    Event, FaultBytes, MOST_EVENTS, Run, Script, ScriptFault, Show, View, read_script,
};
pub use report::{Report, run, run_migrated};
pub use room::Room;
pub use sim::Sim;
pub use simulated_cluster::{Said, SimulatedCluster};
