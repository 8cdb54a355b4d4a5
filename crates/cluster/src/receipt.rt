use lock_command::{Command, HostNumber};
use lock_table::Reply;

/// An acknowledged submission.
#[derive(Clone, Copy, Debug)]
pub struct Receipt {
    pub host: HostNumber,
    pub command: Command,
    pub slot: u16,
    pub reply: Reply,
    /// The place in the journal of the entry that brought the acknowledgement.
    pub place: usize,
}
