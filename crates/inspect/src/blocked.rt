ghost use Rattle.std.specs.Prelude.{◌≡◌, ◌||◌, ℕ, false};
ghost use Rattle.lock_command.specs.State.{is_converting, is_waiting};
ghost use Rattle.lock_command.specs.declared.record.LockRecord.{LockRecord};
ghost use Rattle.inspect.specs.Blocked.{is_held_against, in_one_queue, is_in_the_way, is_blocked_by};

use lock_command::{Mode, compatible};
use lock_table::{LockRecord, LockState};

/// Whether lock `y`, at place `j` of a picture, keeps lock `x`, at place `i`, from what it wants, where both have one name.
pub fn is_in_the_way(i: usize, x: &LockRecord, j: usize, y: &LockRecord) -> bool
    ensures { result ≡ is_in_the_way i x.now j y.now }
{
    (x.lock != y.lock && is_held_against(&x.state, &y.state))
        || (j < i && in_one_queue(&x.state, &y.state))
        || (matches!(x.state, LockState::Waiting(_))
            && matches!(y.state, LockState::Converting { .. }))
}

fn is_held_against(x: &LockState, y: &LockState) -> bool
    ensures { result ≡ is_held_against x.now y.now }
{
    match (x, y) {
        (LockState::Granted(_), _) | (_, LockState::Waiting(_)) => false,
        (
            LockState::Converting { wanted, .. } | LockState::Waiting(wanted),
            LockState::Granted(held) | LockState::Converting { held, .. },
        ) => !compatible(*held, *wanted),
    }
}

fn in_one_queue(x: &LockState, y: &LockState) -> bool
    ensures { result ≡ in_one_queue x.now y.now }
{
    matches!(
        (x, y),
        (LockState::Converting { .. }, LockState::Converting { .. })
            | (LockState::Waiting(_), LockState::Waiting(_))
    )
}

/// Whether the lock wants what it does not hold.
pub fn wants(x: &LockRecord) -> bool
    ensures wants { result ≡ (is_converting x.now.state || is_waiting x.now.state) }
    // A lock that wants nothing is blocked by nobody.
    ensures blocked { result ≡ false → (i j : ℕ) (y : LockRecord) → is_blocked_by i x.now j y ≡ false }
{
    !matches!(x.state, LockState::Granted(_))
}

/// Whether the lock waits.
pub fn is_waiting(x: &LockRecord) -> bool
    ensures { result ≡ is_waiting x.now.state }
{
    matches!(x.state, LockState::Waiting(_))
}
