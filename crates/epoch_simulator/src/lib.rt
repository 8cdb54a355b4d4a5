//! A simulated cluster of hosts over all epochs: whatever is done to it, what its hosts do is one log without an end.
#![tactic(auto)]

mod begin_fault;
mod device_call;
mod law;
mod simulated_epochs;

pub use begin_fault::BeginFault;
pub use law::runs_have_one_log;
pub use simulated_epochs::SimulatedEpochs;
