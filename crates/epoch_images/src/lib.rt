//! A host over all epochs that works over disks and stays open: its submissions, recoveries, looks and markings, each made to its end.
#![tactic(auto)]

mod epoch_disk_host;
mod fault;
mod folder_host;
mod in_turn;
mod operation;
mod recover_and_mark;

pub use epoch_disk_host::{EpochDiskHost, Placed};
pub use fault::EpochFault;
pub use folder_host::start_epoch_host;
pub use in_turn::submit_in_turn;
pub use recover_and_mark::MarkedPlaces;
