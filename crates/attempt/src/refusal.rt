ghost use Rattle.std.specs.Prelude.{◌≡◌};
ghost use Rattle.attempt.specs.Refusals.{refusal_number, refusal_name};

use thiserror::Error;

/// Why an operation ended without what it was begun for. What was learned before is kept.
#[derive(Clone, Copy, Debug, PartialEq, Eq, Error)]
pub enum Refusal {
    /// Another host's greater ballot was read, and it was the last try.
    #[error("outrun by another host's ballot")]
    Outrun = 6,
    /// So many disks failed, were lost, crashed, showed damage or have no sequence number left for this host's block that
    /// no majority of them is left.
    #[error("no majority of the disks answers")]
    NoMajority = 7,
    /// The next ballot of this host would be above 2^62.
    #[error("the ballots of this host are spent")]
    BallotsSpent = 8,
    /// All slots of the log are learned.
    #[error("the log is full")]
    LogFull = 9,
    /// A chosen value is no command. It is not learned.
    #[error("a committed value is no command")]
    NotACommand = 10,
    /// The slot that was to be marked is not learned.
    #[error("the slot is not learned")]
    NotLearned = 30,
}

impl Refusal {
    /// The number that is printed.
    pub fn number(self) -> u8
        ensures { result ≡ refusal_number self }
    {
        self as u8
    }

    /// The name that is printed after the number.
    pub fn name(self) -> &'static str
        ensures { result.now ≡ refusal_name self }
    {
        match self {
            Refusal::Outrun => "Outrun",
            Refusal::NoMajority => "NoMajority",
            Refusal::BallotsSpent => "BallotsSpent",
            Refusal::LogFull => "LogFull",
            Refusal::NotACommand => "NotACommand",
            Refusal::NotLearned => "NotLearned",
        }
    }
}
