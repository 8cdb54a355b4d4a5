ghost use Rattle.std.specs.Prelude.{◌≡◌, ℕ, List, OnOk, IfErr};
ghost use Rattle.disk.specs.Disk.{DiskState, Call, Step};
ghost use Rattle.attempt.specs.Answers.{heard_as};
ghost use Rattle.attempt.specs.History.{Fits};
ghost use Rattle.attempt.specs.DeviceCalls.{device_answer, heard_of};
ghost use Rattle.torn_block.specs.Layout.{cluster_version};
ghost use Rattle.world.specs.Plain.{fault_in};
ghost use Rattle.cluster.specs.Book.{answer_in};

use attempt::Heard;
use disk::{Boot, DiskFault};
use torn_block::ROW_LENGTH;

/// What a device call answered. The bytes of a row lie in the disk's book.
#[derive(Clone, Copy, Debug)]
pub enum CallOutcome {
    Booted(Boot),
    Done,
    Told,
    Fault(DiskFault),
}

impl CallOutcome {
    // The answer to a call that gives nothing more.
    pub(crate) fn of(answer: Result<(), DiskFault>, success: CallOutcome) -> CallOutcome
        ensures done { OnOk answer (result ≡ success) }
        ensures failed { IfErr answer (λ fault. result ≡ CallOutcome.Fault fault) }
    {
        match answer {
            Ok(()) => success,
            Err(fault) => CallOutcome::Fault(fault),
        }
    }

    // The fault, where the call was answered by one.
    pub(crate) fn fault(&self) -> Option<DiskFault>
        ensures { (row : List ℕ) → result ≡ fault_in (answer_in self.now row) }
    {
        match self {
            CallOutcome::Fault(fault) => Some(*fault),
            CallOutcome::Booted(_) | CallOutcome::Done | CallOutcome::Told => None,
        }
    }

    // What the host hears.
    pub(crate) fn heard<'a>(&self, row: &'a [u8; ROW_LENGTH]) -> Heard<'a>
        ensures answer { device_answer result ≡ answer_in self.now row.now }
        ensures same { heard_of cluster_version result ≡ heard_as (answer_in self.now row.now) }
        ensures fits { (old new : DiskState) (call : Call) →
            Step old call (answer_in self.now row.now) new →
            Fits call (heard_of cluster_version result) }
    {
        match self {
            CallOutcome::Booted(boot) => Heard::Booted(*boot),
            CallOutcome::Done => Heard::Done,
            CallOutcome::Told => Heard::Told(row),
            CallOutcome::Fault(fault) => Heard::Fault(*fault),
        }
    }
}

/// A device call that was made, and is to be committed to the journal: it can't be dropped.
pub struct Touched {
    pub(crate) outcome: CallOutcome,
}
