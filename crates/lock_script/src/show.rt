use lock_command::HostNumber;

/// What is to be shown of a host's table.
#[derive(Clone, Copy, Debug, PartialEq, Eq)]
pub enum View {
    /// The queues of each name.
    Queues,
    /// Whether clients wait for one another in a circle.
    Blocking,
}

/// A host's table is to be shown, after so many events.
#[derive(Clone, Copy, Debug)]
pub struct Show {
    pub place: usize,
    pub host: HostNumber,
    pub view: View,
}
