ghost use Rattle.std.specs.Prelude.{◌≡◌, ◌≤◌, ◌⊎◌, IsTrue, None, Some, false, true};
ghost use Rattle.session.specs.Beginnings.{AsksAs, Begins, IsAnotherValue, IsNewClaim, OnlyBegins, first_pace};
ghost use Rattle.session.specs.Bounds.{IsPause, is_leaving, orders_left};
ghost use Rattle.session.specs.Keeping.{Keeps, KeepsRelease};
ghost use Rattle.session.specs.Moves.{GoesOn, KeepsGoal, KeepsValue};
ghost use Rattle.session.specs.Outcomes.{IsFor, IsUnheard, TellsFailure};
ghost use Rattle.session.specs.declared.outcome.Failure.{Failure};

use crate::claim::{Claim, Goal, Standing, Step};
use crate::numbers::lock_of;
use crate::outcome::{Outcome, Why};
use crate::pace::Pace;
use lock_command::{HostNumber, LockName, LockNumber, Mode, ValueBytes};

/// How often in one operation a lock that was given up is released at most, once it is to end soon.
pub const LAST_TRIES: u8 = 8;

/// What a session is to know before it takes a lock.
#[derive(Clone, Copy, Debug)]
pub struct Asker {
    pub host: HostNumber,
    /// Whether other processes have the host number, too.
    pub shares: bool,
    /// The last request of the session, or 0.
    pub request: u64,
    /// The longest pause between two looks, in milliseconds.
    pub interval: u16,
}

impl Claim {
    /// A lock on a name is to be taken: waited for, or at once.
    pub fn take(asker: &Asker, name: LockName, mode: Mode, waits: bool) -> Claim
        ensures { IsNewClaim asker.now name mode waits result }
    {
        Claim {
            host: asker.host,
            shares: asker.shares,
            name,
            mode,
            lock: lock_of(asker.host, asker.shares, 0),
            standing: Standing::Unasked,
            asked: None,
            slot: None,
            release: None,
            value: None,
            request: asker.request,
            since: 0,
            goal: Goal::Take { waits },
            step: Step::Opening,
            over: None,
            tries: LAST_TRIES,
            pace: Pace::new(asker.interval),
        }
    }

    /// A lock that a former run of the host number left, with its sign of life.
    pub fn left(host: HostNumber, lock: LockNumber, name: LockName, mode: Mode) -> Claim
        ensures lock { result.lock ≡ lock }
        ensures standing { result.standing ≡ Standing.Left }
        ensures of { (result.host ≡ host) × (result.shares ≡ false) × (result.name ≡ name) × (result.mode ≡ mode) }
        ensures idle { result.step ≡ Step.Ended (Outcome.Failed Why.Waits) }
        ensures unknown { (result.asked ≡ None) × (result.slot ≡ None) × (result.release ≡ None) }
        ensures nothing { (result.value ≡ None) × (result.over ≡ None) × (result.since ≡ 0) × (result.request ≡ 0) }
    {
        let asker = Asker {
            host,
            shares: false,
            request: 0,
            interval: 1,
        };
        Claim {
            lock,
            standing: Standing::Left,
            step: Step::Ended(Outcome::Failed(Why::Waits)),
            ..Claim::take(&asker, name, mode, true)
        }
    }

    /// The lock that a former run left is to be taken.
    pub fn take_left(&mut self, asker: &Asker, waits: bool)
        ensures begins { Begins (Goal.Take waits) self.old self.new }
        ensures only { OnlyBegins (Goal.Take waits) asker.now self.old self.new }
        ensures asks { AsksAs asker.now self.old self.new }
        ensures opens { self.new.step ≡ Step.Opening }
        ensures stands { self.new.standing ≡ self.old.standing }
        ensures value { self.new.value ≡ self.old.value }
        ensures keeps { Keeps (record self.old { over = None; pace = first_pace asker.now.interval }) self.new }
        ensures release { KeepsRelease self.old self.new }
    {
        self.begin(asker, Goal::Take { waits });
        self.step = Step::Opening;
    }

    /// It is to be looked whether the lock is still there. A release of it that may be in the log stays known.
    pub fn check(&mut self, asker: &Asker)
        ensures begins { Begins Goal.Check self.old self.new }
        ensures only { OnlyBegins Goal.Check asker.now self.old self.new }
        ensures asks { AsksAs asker.now self.old self.new }
        ensures opens { self.new.step ≡ Step.OpeningToLook }
        ensures stands { is_leaving self.old.standing ≡ false → self.new.standing ≡ self.old.standing }
        ensures looks { is_leaving self.new.standing ≡ false }
        ensures held { is_leaving self.old.standing ≡ true → self.new.standing ≡ Standing.Held }
        ensures value { self.new.value ≡ self.old.value }
        ensures keeps { Keeps (record self.old { over = None; pace = first_pace asker.now.interval }) self.new }
        ensures release { KeepsRelease self.old self.new }
    {
        self.begin(asker, Goal::Check);
        if self.standing == Standing::Leaving {
            self.standing = Standing::Held;
        }
        self.step = Step::OpeningToLook;
    }

    /// The lock is to be given back, and this value stored. Refused where a release with another value may be in the log.
    pub fn give(&mut self, asker: &Asker, value: Option<ValueBytes>) -> bool
        ensures refused { result ≡ false → IsAnotherValue self.old value }
        ensures unchanged { result ≡ false → self.new ≡ self.old }
        ensures begins { IsTrue result → Begins Goal.Give self.old self.new }
        ensures only { IsTrue result → OnlyBegins Goal.Give asker.now self.old self.new }
        ensures asks { IsTrue result → AsksAs asker.now self.old self.new }
        ensures leaves { IsTrue result → self.new.standing ≡ Standing.Leaving }
        ensures opens { IsTrue result → self.new.step ≡ Step.Opening }
        ensures value { IsTrue result → self.new.value ≡ value }
        ensures same { IsTrue result → (self.old.release ≡ None) ⊎ (self.old.value ≡ value) }
        ensures keeps { Keeps (record self.old { over = self.new.over; pace = self.new.pace }) self.new }
        ensures release { KeepsRelease self.old self.new }
    {
        if self.release.is_some() && self.value != value {
            return false;
        }
        self.begin(asker, Goal::Give);
        self.value = value;
        self.standing = Standing::Leaving;
        self.step = Step::Opening;
        true
    }

    /// The lock was given up in an operation before this one, and is to be released. Nothing is stored, unless by a release that may be in the log.
    pub fn give_up_again(&mut self, asker: &Asker)
        ensures begins { Begins (Goal.GiveUp Why.Gone) self.old self.new }
        ensures only { OnlyBegins (Goal.GiveUp Why.Gone) asker.now self.old self.new }
        ensures asks { AsksAs asker.now self.old self.new }
        ensures leaves { self.new.standing ≡ Standing.Leaving }
        ensures opens { self.new.step ≡ Step.Opening }
        ensures value { self.old.release ≡ None → self.new.value ≡ None }
        ensures keeps { Keeps (record self.old { over = None; pace = first_pace asker.now.interval }) self.new }
        ensures release { KeepsRelease self.old self.new }
    {
        self.begin(asker, Goal::GiveUp(Why::Gone));
        self.leave();
        self.step = Step::Opening;
    }

    fn begin(&mut self, asker: &Asker, goal: Goal)
        ensures begins { Begins goal self.old self.new }
        ensures only { OnlyBegins goal asker.now self.old self.new }
        ensures asks { AsksAs asker.now self.old self.new }
        ensures step { self.new.step ≡ self.old.step }
        ensures stands { self.new.standing ≡ self.old.standing }
        ensures value { self.new.value ≡ self.old.value }
        ensures keeps { Keeps (record self.old { over = None; pace = first_pace asker.now.interval }) self.new }
        ensures release { KeepsRelease self.old self.new }
    {
        self.goal = goal;
        self.request = self.request.max(asker.request);
        self.over = None;
        self.tries = LAST_TRIES;
        self.pace = Pace::new(asker.interval);
    }

    /// The operation is to end soon: time is over, or the caller said so. After 13 orders at most it ends, and none of them is a pause.
    pub fn stop(&mut self, why: Why)
        ensures over { self.new.over ≡ Some why }
        ensures soon { orders_left self.new ≤ 13 }
        ensures no_pause { IsPause self.new.step → ⊥ }
        ensures goes_on { (IsPause self.old.step → ⊥) → self.new ≡ record self.old { over = Some why; tries = LAST_TRIES } }
        ensures unheard { IsPause self.old.step → IsUnheard self.new }
        ensures told { IsPause self.old.step → self.old.pace.failure ≡ None → IsFor self.old self.new why }
        // A pause for what failed ends for that.
        ensures failed { (failure : Failure) → IsPause self.old.step → self.old.pace.failure ≡ Some failure → TellsFailure (record self.old { over = Some why }) failure self.new }
        ensures moves { GoesOn (record self.old { over = Some why }) self.new }
        ensures goal { KeepsGoal self.old self.new }
        ensures value { KeepsValue self.old self.new }
        ensures keeps { Keeps (record self.old { over = Some why }) self.new }
        ensures release { KeepsRelease self.old self.new }
    {
        self.over = Some(why);
        self.tries = LAST_TRIES;
        match self.step {
            Step::Resting(_) | Step::Yielding => match self.pace.failure {
                Some(failure) => self.give_up(self.cause(failure)),
                None => self.give_up(why),
            },
            _ => {}
        }
    }
}
