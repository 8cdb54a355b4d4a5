ghost use Rattle.std.specs.Prelude.{◌≡◌, ◌+◌, ◌≤◌, ◌⊎◌, IfSome, IsTrue, Some, false, true};
ghost use Rattle.session.specs.Bounds.{IsPause, is_leaving, orders_left};
ghost use Rattle.session.specs.Choosing.{IsNext};
ghost use Rattle.session.specs.Keeping.{Keeps, KeepsRelease, KeepsReleaseUntilOut};
ghost use Rattle.session.specs.Moves.{Forgets, GoesOn, IsSpent, KeepsGoal, KeepsValue, MovesOn, ReleasesAnew, passed};
ghost use Rattle.session.specs.Outcomes.{EndsIn, GivesBack, IsBorneOut, IsGivenUpFor, IsGone, IsUnheard, IsWithout, IsWithoutOrGiven};

use crate::claim::{Claim, Goal, Standing, Step, Then};
use crate::evidence::{Seen, find, first_of, is_spared, releases_at};
use crate::learned::Learned;
use crate::numbers::client_of;
use crate::outcome::{Outcome, Why};
use lock_command::{Action, Command, RequestNumber};
use lock_table::Refusal;

impl Claim {
    /// Releases the lock: by the command that may be in the log, where there is one, else by a new one, unless the lock is gone.
    pub(crate) fn let_go(&mut self, learned: &Learned<'_>)
        requires leaving { self.old.standing ≡ Standing.Leaving }
        ensures borne_out { IsBorneOut learned.now self.new }
        ensures soon { orders_left self.new ≤ 2 + self.old.tries }
        ensures no_pause { IsPause self.new.step → ⊥ }
        ensures moves { MovesOn learned.now self.old self.new }
        ensures goal { KeepsGoal self.old self.new }
        ensures value { KeepsValue self.old self.new }
        ensures keeps { Keeps self.old self.new }
        ensures release { KeepsReleaseUntilOut learned.now self.old self.new }
    {
        if self.release.is_none() && self.is_gone(learned) {
            self.drop_sign(learned, self.then_gone());
        } else {
            self.put_release(learned);
        }
    }

    /// Releases the lock: by the command that may be in the log, where there is one, else by a new one.
    pub(crate) fn put_release(&mut self, learned: &Learned<'_>)
        requires leaving { self.old.standing ≡ Standing.Leaving }
        ensures unheard { IsUnheard self.new }
        ensures soon { orders_left self.new ≤ 2 + self.old.tries }
        ensures no_pause { IsPause self.new.step → ⊥ }
        ensures moves { MovesOn learned.now self.old self.new }
        ensures goal { KeepsGoal self.old self.new }
        ensures value { KeepsValue self.old self.new }
        ensures keeps { Keeps self.old self.new }
        ensures release { KeepsReleaseUntilOut learned.now self.old self.new }
    {
        match self.release {
            Some(request) => self.submit_release(request),
            None => self.release_anew(learned),
        }
    }

    /// Whether the table lacks the lock, and that does not come into it any more.
    fn is_gone(&self, learned: &Learned<'_>) -> bool
        ensures { IsTrue result → IsGone learned.now self.now }
    {
        find(learned.table, self) == Seen::Absent && self.is_out(learned, self.asked)
    }

    /// Releases the lock by the next request. A release before this one has no further effect.
    fn release_anew(&mut self, learned: &Learned<'_>)
        requires out { IsSpent learned.now self.old }
        requires leaving { self.old.standing ≡ Standing.Leaving }
        ensures unheard { IsUnheard self.new }
        ensures soon { orders_left self.new ≤ 2 + self.old.tries }
        ensures no_pause { IsPause self.new.step → ⊥ }
        ensures moves { Forgets learned.now self.old self.new ⊎ ReleasesAnew learned.now self.old self.new }
        ensures goal { KeepsGoal self.old self.new }
        ensures value { KeepsValue self.old self.new }
        ensures keeps { Keeps self.old self.new }
        ensures release { KeepsReleaseUntilOut learned.now self.old self.new }
    {
        self.release = None;
        match self.next_request(learned) {
            Some(request) => {
                self.since = passed(self.slot, learned.upto());
                self.request = request.get();
                self.pace.outrun = 0;
                self.submit_release(request);
            }
            None => self.give_up(Why::NoNumber),
        }
    }

    /// The next request of the session that no command of its client has, as far as is known.
    fn next_request(&self, learned: &Learned<'_>) -> Option<RequestNumber>
        ensures { IfSome result (IsNext learned.now self.now.host self.now.request) }
    {
        RequestNumber::new(self.last_request(learned) + 1)
    }

    pub(crate) fn submit_release(&mut self, request: RequestNumber)
        ensures unheard { IsUnheard self.new }
        ensures soon { orders_left self.new ≡ 2 + self.old.tries }
        ensures keeps { Keeps self.old self.new }
        ensures no_pause { IsPause self.new.step → ⊥ }
        ensures rest { self.new ≡ record self.old { release = Some request; standing = Standing.Leaving; step = self.new.step } }
    {
        self.release = Some(request);
        self.standing = Standing::Leaving;
        self.step = Step::Submitting(Command {
            host: self.host,
            client: client_of(self.host),
            request,
            action: Action::Release {
                lock: self.lock,
                value: self.value,
            },
        });
    }

    /// A release stands in the log.
    pub(crate) fn release_replied(&mut self, learned: &Learned<'_>)
        requires leaving { self.old.standing ≡ Standing.Leaving }
        ensures borne_out { IsBorneOut learned.now self.new }
        ensures soon { orders_left self.new ≤ 1 + self.old.tries }
        ensures no_pause { IsPause self.new.step → ⊥ }
        ensures given_up { (why : Why) → EndsIn self.new (Outcome.NotHeld why) → IsGivenUpFor self.old.goal why }
        ensures moves { MovesOn learned.now self.old self.new }
        ensures goal { KeepsGoal self.old self.new }
        ensures value { KeepsValue self.old self.new }
        ensures keeps { Keeps self.old self.new }
        ensures release { KeepsReleaseUntilOut learned.now self.old self.new }
    {
        match self.given_at(learned) {
            Some(slot) => self.drop_sign(learned, self.then_given(slot)),
            None if self.is_gone(learned) => self.drop_sign(learned, self.then_gone()),
            // It stands in the log, and the table does not know it.
            None if !self.is_out(learned, self.release) => self.break_off(),
            // Another command of this number came first.
            None if self.tries > 0 => {
                self.tries -= 1;
                self.release_anew(learned);
            }
            None => {
                self.release = None;
                self.give_up(Why::Refused(Refusal::Stale));
            }
        }
    }

    /// Where the release stands that took the lock out of the table, if it was this claim's own.
    fn given_at(&self, learned: &Learned<'_>) -> Option<u64>
        ensures { IfSome result (λ slot. GivesBack learned.now self.now slot) }
    {
        let slot = first_of(learned, self.since, client_of(self.host), self.release?)?;
        if releases_at(learned, slot, self.lock, self.value)
            && is_spared(learned, self.since, slot, self.host)
            && find(learned.table, self) == Seen::Absent
        {
            Some(slot)
        } else {
            None
        }
    }

    fn then_given(&self, slot: u64) -> Then
        ensures without { IsWithoutOrGiven slot result }
        ensures given_up { (why : Why) → result ≡ Then.End (Outcome.NotHeld why) → IsGivenUpFor self.now.goal why }
    {
        match self.goal {
            Goal::Give => Then::End(Outcome::Given { slot }),
            Goal::GiveUp(why) => Then::End(Outcome::NotHeld(why)),
            Goal::Take { .. } | Goal::Check => Then::AskAgain,
        }
    }

    fn then_gone(&self) -> Then
        ensures without { IsWithout result }
        ensures given_up { (why : Why) → result ≡ Then.End (Outcome.NotHeld why) → IsGivenUpFor self.now.goal why }
    {
        match self.goal {
            Goal::Give => Then::End(Outcome::NotHeld(Why::Gone)),
            Goal::GiveUp(why) => Then::End(Outcome::NotHeld(why)),
            Goal::Take { .. } | Goal::Check => Then::AskAgain,
        }
    }

    /// A release was outrun, and the operation is to end soon.
    pub(crate) fn try_once_more(&mut self, why: Why)
        ensures unheard { IsUnheard self.new }
        ensures soon { is_leaving self.old.standing ≡ false → orders_left self.new ≤ 12 }
        ensures leaves { is_leaving self.old.standing ≡ true → orders_left self.new ≤ 1 + self.old.tries }
        ensures moves { GoesOn self.old self.new }
        ensures goal { KeepsGoal self.old self.new }
        ensures value { KeepsValue self.old self.new }
        ensures keeps { Keeps self.old self.new }
        ensures release { KeepsRelease self.old self.new }
    {
        match (self.standing, self.release) {
            (Standing::Leaving, Some(request)) if self.tries > 0 => {
                self.tries -= 1;
                self.submit_release(request);
            }
            _ => self.give_up(why),
        }
    }
}

/// How many places come before whatever is submitted next: those that were learned, and those up to the command that asked for the lock. A host that only
/// looked has learned fewer.
fn passed(slot: Option<u64>, learned: u64) -> u64
    ensures { result ≡ passed slot learned }
{
    match slot {
        Some(slot) => learned.max(slot.saturating_add(1)),
        None => learned,
    }
}
