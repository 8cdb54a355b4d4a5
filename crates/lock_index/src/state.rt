ghost use Rattle.std.specs.Prelude.{◌≡◌, not};
ghost use Rattle.lock_index.specs.Bits.{held_bit};
ghost use Rattle.lock_index.specs.Printed.{rank_of, number_among};
ghost use Rattle.lock_command.specs.State.{goal_of, is_queued};

use crate::bits::bit_of;
use lock_command::{LockState, Mode};

/// The bit of the mode that is held.
pub fn held_bit(state: &LockState) -> u8
    ensures { result ≡ held_bit state.now }
{
    match state {
        LockState::Granted(mode) | LockState::Converting { held: mode, .. } => bit_of(*mode),
        LockState::Waiting(_) => 0,
    }
}

/// Whether the lock wants nothing more than it holds.
pub fn is_granted(state: &LockState) -> bool
    ensures { result ≡ not (is_queued state.now) }
{
    matches!(state, LockState::Granted(_))
}

/// The rank of locks in this state: 0 granted, 1 converting, 2 waiting. The locks of a name are printed by rank.
pub fn rank(state: &LockState) -> u8
    ensures { result ≡ rank_of state.now }
{
    match state {
        LockState::Granted(_) => 0,
        LockState::Converting { .. } => 1,
        LockState::Waiting(_) => 2,
    }
}

/// The part of the sort key that orders locks of one name and rank: the lock number if granted. It is 0 for a queued lock,
/// because a queue keeps the order in which its locks came.
pub fn number_among(state: &LockState, lock: u16) -> u16
    ensures { result ≡ number_among state.now lock }
{
    match state {
        LockState::Granted(_) => lock,
        LockState::Converting { .. } | LockState::Waiting(_) => 0,
    }
}

/// The mode that the lock holds once it wants nothing more.
pub fn goal(state: &LockState) -> Mode
    ensures { result ≡ goal_of state.now }
{
    match state {
        LockState::Granted(mode) | LockState::Waiting(mode) => *mode,
        LockState::Converting { wanted, .. } => *wanted,
    }
}
