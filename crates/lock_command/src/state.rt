use crate::mode::Mode;

/// What a lock holds and what it wants.
#[derive(Clone, Copy, Debug, PartialEq, Eq)]
pub enum LockState {
    Granted(Mode),
    Converting { held: Mode, wanted: Mode },
    Waiting(Mode),
}
