//! Claims, and what begins and ends an operation on one.
ghost use Rattle.std.specs.Prelude.{◌≡◌, IfSome, None};
ghost use Rattle.lock_command.specs.declared.mode.Mode.{Mode};
ghost use Rattle.c_claims.specs.Asking.{BeginsGoalOr, IsLeftOf, IsNewOf, MayBeLeft, MayTake, Stops};

use crate::asker::AskerNumbers;
use c_host::{BAD_ARGUMENT, lock_of, mode_of};
use lock_command::{LOCK_VALUE_LENGTH, LockName, ValueBytes};
use session::{Claim, Why};

/// What a give is to store.
#[repr(C)]
#[derive(Clone, Copy, Drop)]
pub struct ValueNumbers {
    pub bytes: [u8; LOCK_VALUE_LENGTH],
}

/// A claim to a lock on a name that is to be taken: waited for, or at once. None if there is no such asker, name or mode.
pub fn take(asker: &AskerNumbers, name: &[u8], mode: u32, waits: bool) -> Option<Claim>
    ensures some { IfSome result (IsNewOf asker.now name.now mode waits) }
    ensures none { result ≡ None → (wanted : Mode) → MayTake asker.now name.now mode wanted → ⊥ }
{
    let asker = asker.asker()?;
    Some(Claim::take(&asker, LockName::new(name)?, mode_of(mode)?, waits))
}

/// A claim to a lock that a former run left. None if there is no such asker, lock, name or mode.
pub fn left(asker: &AskerNumbers, lock: u32, name: &[u8], mode: u32) -> Option<Claim>
    ensures some { IfSome result (IsLeftOf asker.now lock name.now mode) }
    ensures none { result ≡ None → (wanted : Mode) → MayBeLeft asker.now lock name.now mode wanted → ⊥ }
{
    let asker = asker.asker()?;
    Some(Claim::left(
        asker.host,
        lock_of(lock)?,
        LockName::new(name)?,
        mode_of(mode)?,
    ))
}

/// An operation on the claim begins: 1 to take, and wait for, a lock that a former run left, 2 to take it at once, 3 to look whether the lock is still
/// there, 4 to give it back, 5 to give it back with a value, 6 to release it as one that was given up.
pub fn begin(claim: &mut Claim, asker: &AskerNumbers, goal: u32, value: &ValueNumbers) -> i32
    ensures { BeginsGoalOr asker.now goal value.now.bytes claim.old claim.new result }
{
    let Some(asker) = asker.asker() else {
        return BAD_ARGUMENT;
    };
    let begun = match goal {
        1 => {
            claim.take_left(&asker, true);
            true
        }
        2 => {
            claim.take_left(&asker, false);
            true
        }
        3 => {
            claim.check(&asker);
            true
        }
        4 => claim.give(&asker, None),
        5 => claim.give(&asker, Some(ValueBytes::new(value.bytes))),
        6 => {
            claim.give_up_again(&asker);
            true
        }
        _ => false,
    };
    if begun { 0 } else { BAD_ARGUMENT }
}

/// The operation on the claim is to end soon: the caller's time is over, or it was told to stop.
pub fn stop(claim: &mut Claim, told: bool)
    ensures { Stops told claim.old claim.new }
{
    claim.stop(if told { Why::Stopped } else { Why::TimeOver });
}
