use host::HostAnswer;
use lock_command::HostNumber;
use lock_table::Picture;

/// How an operation of a host ended, and with which event.
#[derive(Drop)]
pub struct Answer {
    /// The number of the event, from 0; events that do not apply count, too.
    pub place: usize,
    pub host: HostNumber,
    pub said: HostAnswer,
    /// Of a recovery or a look: what the host's lock table shows then.
    pub picture: Option<Picture>,
}
