ghost use Rattle.std.specs.Prelude.{◌≡◌, ◌↔◌, IsTrue};
ghost use Rattle.lock_command.specs.Refusals.{refusal_number, refusal_name, refusal_of};

use crate::state::LockState;
use crate::value::LOCK_VALUE_LENGTH;

/// Why a command changed no lock and no queue.
#[derive(Clone, Copy, Debug, PartialEq, Eq)]
pub enum Refusal {
    /// The lock number is in the table.
    LockInUse = 11,
    /// The lock number is not in the table.
    NoSuchLock = 12,
    /// The lock is another client's.
    NotOwner = 13,
    /// The lock is waiting for an earlier conversion.
    AlreadyConverting = 14,
    /// The lock has not been granted yet, so it cannot be converted.
    StillWaiting = 15,
    /// The lock cannot be granted at once, and the command said `noqueue`.
    NotQueued = 16,
    /// The table is full of locks.
    TableFull = 17,
    /// The request number is below the client's last. The client's last reply stays kept.
    Stale = 18,
    /// The client is new, and the table is full of clients. Nothing is kept of it.
    ClientsFull = 19,
    /// The lock is granted.
    NothingToCancel = 20,
}

impl Refusal {
    /// All refusals.
    const ALL: [Refusal; 10] = [
        Refusal::LockInUse,
        Refusal::NoSuchLock,
        Refusal::NotOwner,
        Refusal::AlreadyConverting,
        Refusal::StillWaiting,
        Refusal::NotQueued,
        Refusal::TableFull,
        Refusal::Stale,
        Refusal::ClientsFull,
        Refusal::NothingToCancel,
    ];

    /// The number that is printed. A client that is carried over has it in its bytes.
    pub fn number(self) -> u8
        ensures { result ≡ refusal_number self }
    {
        self as u8
    }

    /// The name that is printed after the number.
    pub fn name(self) -> &'static str
        ensures { result.now ≡ refusal_name self }
    {
        match self {
            Refusal::LockInUse => "LockInUse",
            Refusal::NoSuchLock => "NoSuchLock",
            Refusal::NotOwner => "NotOwner",
            Refusal::AlreadyConverting => "AlreadyConverting",
            Refusal::StillWaiting => "StillWaiting",
            Refusal::NotQueued => "NotQueued",
            Refusal::TableFull => "TableFull",
            Refusal::Stale => "Stale",
            Refusal::ClientsFull => "ClientsFull",
            Refusal::NothingToCancel => "NothingToCancel",
        }
    }

    /// The refusal that has this number.
    #[tactic(auto, unfolding(crate::specs::Refusals::refusal_of))]
    pub fn of_number(number: u8) -> Option<Refusal>
        ensures { result ≡ refusal_of number }
    {
        Refusal::ALL
            .iter()
            .copied()
            .find(|refusal| refusal.number() == number)
    }
}

/// What a command did.
#[derive(Clone, Copy, Debug, PartialEq, Eq)]
pub enum Answer {
    Granted,
    Queued,
    Released,
    Cancelled,
    /// How many locks were taken away.
    Purged(u16),
    /// Nothing is kept of the client any more.
    Forgotten,
    State(LockState),
    Refused(Refusal),
}

/// The value of a name that has locks. It becomes invalid when a lock of the name that holds PW or EX is purged.
#[derive(Clone, Copy, Debug, PartialEq, Eq)]
pub struct LockValue {
    pub bytes: [u8; LOCK_VALUE_LENGTH],
    pub valid: bool,
}

impl LockValue {
    /// The value that a name begins with at its first lock: zeros, valid.
    pub const ZEROS: LockValue = LockValue {
        bytes: [0; LOCK_VALUE_LENGTH],
        valid: true,
    };
}

/// The reply to a command: what it did. A grant, and the state of a lock that holds a mode, also return the value of the name.
#[derive(Clone, Copy, Debug, PartialEq, Eq)]
pub struct Reply {
    pub answer: Answer,
    pub value: Option<LockValue>,
}

/// Whether two replies are one. `==` computes the same, and its contract says less.
pub fn is_same_reply(a: &Reply, b: &Reply) -> bool
    ensures { IsTrue result ↔ (a.now ≡ b.now) }
{
    a.answer == b.answer && is_same_value(a.value, b.value)
}

fn is_same_value(a: Option<LockValue>, b: Option<LockValue>) -> bool
    ensures { IsTrue result ↔ (a ≡ b) }
{
    match (a, b) {
        (Some(a), Some(b)) => a == b,
        (None, None) => true,
        _ => false,
    }
}
