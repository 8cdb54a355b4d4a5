use arrayvec::ArrayVec;

/// How many clients can be told apart.
pub const CLIENT_NUMBERS: usize = 256;

/// Whether clients wait for one another in a circle.
#[derive(Debug, Drop)]
pub enum Blocking {
    /// Each of these is blocked by the next, and the last by the first. The least stands first.
    Cycle(ArrayVec<u8, CLIENT_NUMBERS>),
    /// A number for each client, above that of each client that it is blocked by.
    Ranked([u8; CLIENT_NUMBERS]),
}
