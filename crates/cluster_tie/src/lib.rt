//! Tokens without bytes that tie a journal, its disks and its hosts together: each shows its part of one list of entries.
#![tactic(auto)]

mod naming;
mod opened;
mod place;
mod rule;
mod ties;
mod token;
mod view;

pub use naming::{Naming, TiedEntry};
pub use opened::{Opened, Tokens};
pub use place::entries_stand;
pub use ties::Ties;
pub use token::{DiskTie, HostTie, JournalTie};
