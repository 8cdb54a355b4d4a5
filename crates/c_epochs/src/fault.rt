ghost use Rattle.std.specs.Prelude.{◌≡◌};
ghost use Rattle.c_epochs.specs.declared.fault.ShowFault.TheVariants.{NoMemory};
ghost use Rattle.c_epochs.specs.Numbers.{show_number};

use c_host::{Fault, table_number};

/// The lock table is not known: a recovery or a look learns it.
pub const NO_TABLE: i32 = -10;

/// Why nothing of the lock table is shown.
#[derive(Clone, Copy, Debug, PartialEq, Eq)]
pub enum ShowFault {
    /// The lock table is not known.
    NoTable,
    /// The lock is not in the table.
    NoSuchLock,
    NoMemory,
}

impl ShowFault {
    /// The number that C is given.
    pub fn number(self) -> i32
        ensures { result ≡ show_number self }
    {
        match self {
            ShowFault::NoTable => NO_TABLE,
            ShowFault::NoSuchLock => table_number(lock_table::Refusal::NoSuchLock),
            ShowFault::NoMemory => Fault::NoMemory.number(),
        }
    }
}

impl From<lock_table::NoMemory> for ShowFault {
    ghost from_gives = { λ _ fault. fault ≡ NoMemory };

    fn from(_: lock_table::NoMemory) -> Self {
        ShowFault::NoMemory
    }
}
