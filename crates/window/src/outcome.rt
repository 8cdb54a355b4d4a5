/// What the core is to hear of its call.
#[derive(Clone, Copy, Debug, PartialEq, Eq)]
pub enum Outcome {
    /// The device's answer, as it is.
    AsHeard,
    /// The row that the window shows.
    Row,
    /// That its read failed.
    Failed,
}
