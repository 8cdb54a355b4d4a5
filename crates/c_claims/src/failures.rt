//! The numbers of what fails.
ghost use Rattle.std.specs.Prelude.{◌≡◌, ◌⊎◌};
ghost use Rattle.c_claims.specs.Failures.{failure_number, why_number};

use c_host::table_number;
use session::{Failure, Why};

/// Why an operation ended without what it was begun for, by the number that C knows.
pub fn status_of(why: Why) -> i32
    ensures { result ≡ why_number why }
{
    match why {
        Why::TimeOver | Why::Taken => -2,
        Why::Stopped => -5,
        Why::Gone => table_number(lock_table::Refusal::NoSuchLock),
        Why::Waits => table_number(lock_table::Refusal::StillWaiting),
        Why::NoNumber => table_number(lock_table::Refusal::TableFull),
        Why::Refused(refusal) => table_number(refusal),
        Why::Failed(failure) => failure_number(failure),
    }
}

/// The number of a failure.
fn failure_number(failure: Failure) -> i32
    ensures { result ≡ failure_number failure }
{
    match failure {
        Failure::Outrun => 6,
        Failure::NoMajority => 7,
        Failure::BallotsSpent => 8,
        Failure::LogFull => 9,
        Failure::NotACommand => 10,
        Failure::NoMemory => 21,
        Failure::NotFormatted => 24,
        Failure::WrongHeader => 25,
        Failure::Unreadable => 26,
        Failure::OldLayout => 32,
        Failure::HostInUse => 36,
        Failure::NoLock => 37,
        Failure::Broken => -3,
    }
}

/// The failure of this number; `Broken`, if none has it.
pub fn failure_of(number: i32) -> Failure
    ensures known { (known : Failure) → failure_number known ≡ number → result ≡ known }
    ensures numbered { (failure_number result ≡ number) ⊎ (result ≡ Failure.Broken) }
{
    match number {
        6 => Failure::Outrun,
        7 => Failure::NoMajority,
        8 => Failure::BallotsSpent,
        9 => Failure::LogFull,
        10 => Failure::NotACommand,
        21 => Failure::NoMemory,
        24 => Failure::NotFormatted,
        25 => Failure::WrongHeader,
        26 => Failure::Unreadable,
        32 => Failure::OldLayout,
        36 => Failure::HostInUse,
        37 => Failure::NoLock,
        _ => Failure::Broken,
    }
}
