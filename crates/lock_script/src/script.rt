use crate::events::Events;
use crate::show::Show;
use lock_command::Command;
use paxos_block::Config;
use thiserror::Error;

/// What a cluster begins with, what is to happen to it, and when its tables are to be shown.
#[derive(Drop)]
pub struct Script {
    pub config: Config,
    /// The commands that a migration moved into the log before, at most one for each slot.
    pub log: Vec<Command>,
    pub events: Events,
    /// By rising place.
    pub shows: Vec<Show>,
}

/// Why bytes are no script.
#[derive(Clone, Copy, Debug, PartialEq, Eq, Error)]
pub enum ScriptFault {
    #[error("out of memory")]
    NoMemory,
    /// The number of the first bad line, from 1.
    #[error("line {0} is bad")]
    BadLine(usize),
}
