//! A cluster moves to new images: from a folder of the first layout its log is recovered, upgraded and written there, and from a full log of
//! today's layout its table is carried over.
#![tactic(auto)]

mod fault;
mod fill;
mod finishing;
mod gate;
mod image;
mod migrate;
mod migrating;
mod moving;
mod new_folder;
mod old_log;
mod renew;
mod renew_fault;
mod renewal;

pub use fault::MoveFault;
pub use fill::{FillFault, fill_log};
pub use finishing::{finish, finish_left, has_gate};
pub use gate::{Gate, find_gate, gate_in, leave_open, open_gate, sync_gate};
pub use image::clear;
pub use migrate::{Moved, migrate_folder};
pub use migrating::migrate_disks;
pub use moving::move_log;
pub use old_log::recover_log;
pub use renew::{Renewed, renew_folder};
pub use renew_fault::{NewFault, RenewFault};
pub use renewal::renew_disks;
