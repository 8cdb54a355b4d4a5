use cluster::HostFault;
use lock_command::Reply;

/// What a host's bid came to: its slot and the lock table's reply, or why it was refused.
#[derive(Clone, Copy, Debug, PartialEq, Eq)]
pub enum Answer {
    Acknowledged { slot: u16, reply: Reply },
    Refused(HostFault),
}
