ghost use Rattle.std.specs.Prelude.{◌≡◌, IfSome, None, pos};
ghost use Rattle.lock_command.specs.declared.mode.Mode.{Mode};
ghost use Rattle.c_host.specs.Numbers.{mode_number, no_mode, held_number, wanted_number};

use lock_command::Mode;
use lock_table::LockState;

/// The number of no mode.
pub const NO_MODE: i32 = -1;

/// The mode of this number.
pub fn mode_of(number: u32) -> Option<Mode>
    ensures mode { IfSome result (λ mode. mode_number mode ≡ pos number) }
    ensures none { result ≡ None → (mode : Mode) → mode_number mode ≡ pos number → ⊥ }
{
    match number {
        0 => Some(Mode::Null),
        1 => Some(Mode::ConcurrentRead),
        2 => Some(Mode::ConcurrentWrite),
        3 => Some(Mode::ProtectedRead),
        4 => Some(Mode::ProtectedWrite),
        5 => Some(Mode::Exclusive),
        _ => None,
    }
}

/// The number of a mode.
pub fn number_of(mode: Mode) -> i32
    ensures { result ≡ mode_number mode }
{
    match mode {
        Mode::Null => 0,
        Mode::ConcurrentRead => 1,
        Mode::ConcurrentWrite => 2,
        Mode::ProtectedRead => 3,
        Mode::ProtectedWrite => 4,
        Mode::Exclusive => 5,
    }
}

/// The mode that is held and the one that is wanted.
pub fn modes_of(state: LockState) -> (i32, i32)
    ensures held { result.0 ≡ held_number state }
    ensures wanted { result.1 ≡ wanted_number state }
{
    match state {
        LockState::Granted(held) => (number_of(held), NO_MODE),
        LockState::Converting { held, wanted } => (number_of(held), number_of(wanted)),
        LockState::Waiting(wanted) => (NO_MODE, number_of(wanted)),
    }
}
