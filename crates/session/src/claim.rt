ghost use Rattle.std.specs.Prelude.{◌≡◌};
ghost use Rattle.session.specs.Orders.{order_of};

use crate::order::Order;
use crate::outcome::{Outcome, Why};
use crate::pace::Pace;
use lock_command::{Command, HostNumber, LockName, LockNumber, Mode, RequestNumber, ValueBytes};

/// Where a claim stands, as far as its session knows.
#[derive(Clone, Copy, Debug, PartialEq, Eq)]
pub enum Standing {
    /// Nothing was asked for.
    Unasked,
    /// The command that asks for the lock may be in the log, or come into it.
    Asked,
    /// The lock waits, as a table has shown.
    Waiting,
    /// The lock is held, as a table has shown.
    Held,
    /// A former run of the host number asked for it.
    Left,
    /// It is to be released.
    Leaving,
}

/// What the caller wants.
#[derive(Clone, Copy, Debug, PartialEq, Eq)]
pub enum Goal {
    /// The lock, by and by or at once.
    Take { waits: bool },
    /// To know whether the lock is there.
    Check,
    /// To be rid of the lock.
    Give,
    /// To be rid of a lock that was not granted for this reason.
    GiveUp(Why),
}

/// The request that is to ask for the lock, and the lock number that goes with it.
#[derive(Clone, Copy, Debug)]
pub struct Choice {
    pub lock: LockNumber,
    pub request: RequestNumber,
}

/// The sign of life of a lock number that is given up.
#[derive(Clone, Copy, Debug, PartialEq, Eq)]
pub struct Sign {
    pub lock: LockNumber,
    /// Whether its file is removed, too. It stays where the number is in the table all the same: so that lock is seen to be nobody's.
    pub removes: bool,
}

/// What is done once a sign of life is given up.
#[derive(Clone, Copy, Debug, PartialEq, Eq)]
pub enum Then {
    /// The lock is asked for once more, by another number.
    AskAgain,
    End(Outcome),
}

/// What is done now.
#[derive(Clone, Copy, Debug)]
pub enum Step {
    Opening,
    OpeningToLook,
    Learning,
    Looking,
    Tidying,
    /// The sign of life of a number that was chosen is taken.
    Signing(Choice),
    Submitting(Command),
    /// A sign of life is given up.
    Dropping(Sign, Then),
    /// So many milliseconds.
    Resting(u16),
    /// The command was outrun.
    Yielding,
    Ended(Outcome),
}

/// A lock that a session wants, has, or gives back, and the operation on it that is under way.
#[derive(Clone, Copy, Debug)]
pub struct Claim {
    pub host: HostNumber,
    /// Whether other processes have the host number, too.
    pub shares: bool,
    pub name: LockName,
    pub mode: Mode,
    /// Its number, once it was asked for.
    pub lock: LockNumber,
    pub standing: Standing,
    /// The request that asked for it. Nobody knows that of a lock which a former run left.
    pub asked: Option<RequestNumber>,
    /// At which place of the log that request's command stands, if a reply told.
    pub slot: Option<u64>,
    /// The release of it that may be in the log.
    pub release: Option<RequestNumber>,
    /// What that release stores.
    pub value: Option<ValueBytes>,
    /// The last request of the session.
    pub request: u64,
    /// So many places come before whatever was submitted by that: those learned when it was chosen, and those up to the command that asked for the lock.
    pub since: u64,
    pub goal: Goal,
    pub step: Step,
    /// Why the operation is to end soon.
    pub over: Option<Why>,
    /// How often a lock that was given up may still be released in this operation.
    pub tries: u8,
    pub pace: Pace,
}

impl Claim {
    /// What is to be done next.
    pub fn next(&self) -> Order
        ensures { result ≡ order_of self.now.step self.now.pace.outrun }
    {
        match self.step {
            Step::Opening => Order::Open,
            Step::OpeningToLook => Order::OpenToLook,
            Step::Learning => Order::Learn,
            Step::Looking => Order::Look,
            Step::Tidying => Order::Tidy,
            Step::Signing(choice) => Order::TakeSign(choice.lock),
            Step::Submitting(command) => Order::Submit(command),
            Step::Dropping(sign, _) => Order::DropSign(sign),
            Step::Resting(milliseconds) => Order::Rest(milliseconds),
            Step::Yielding => Order::Yield(self.pace.outrun),
            Step::Ended(outcome) => Order::Done(outcome),
        }
    }
}
