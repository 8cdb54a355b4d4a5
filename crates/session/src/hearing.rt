ghost use Rattle.std.specs.Prelude.{◌≡◌, ◌+◌, ◌≢◌, ◌≤◌, ◌⊎◌, ◌↔◌, ℕ, Bool, IsTrue, None, Some, is_some, true};
ghost use Rattle.session.specs.Bounds.{CannotFail, ComesNearer, IsOpening, IsPause, IsReading, MayPause, is_leaving, orders_left};
ghost use Rattle.session.specs.Keeping.{IsOnSame, Keeps, KeepsRelease, KeepsReleaseUntilOut};
ghost use Rattle.session.specs.Moves.{AsksOn, BreaksOff, Chooses, GoesOn, KeepsGoal, KeepsValue, MovesOn, reached};
ghost use Rattle.session.specs.Outcomes.{IsBorneOut, IsFor, IsGivenUp, IsOut, IsSubmitting, IsUnheard, TellsFailure, TellsWhy, then_of};

use crate::beginning::LAST_TRIES;
use crate::claim::{Claim, Goal, Sign, Standing, Step, Then};
use crate::evidence::{Seen, find, has_heard, is_numbered, is_taken};
use crate::learned::Learned;
use crate::numbers::client_of;
use crate::outcome::{Failure, Outcome, Why};
use lock_command::RequestNumber;

impl Claim {
    /// The folder is open, and its host has learned so much.
    pub fn opened(&mut self, learned: &Learned<'_>)
        ensures borne_out { IsBorneOut learned.now self.new }
        ensures nearer { ComesNearer self.old self.new }
        ensures out_of_turn { (IsOpening self.old.step → ⊥) → BreaksOff (reached self.old) self.new }
        ensures moves { MovesOn learned.now self.old self.new }
        ensures goal { KeepsGoal self.old self.new }
        ensures value { KeepsValue self.old self.new }
        ensures keeps { Keeps self.old self.new }
        ensures release { KeepsReleaseUntilOut learned.now self.old self.new }
    {
        let learns_first = self.shares && self.release.is_none();
        match self.step {
            Step::Opening if self.standing == Standing::Leaving && !learns_first => {
                // A release that may be in the log is put there once more, and found where it stands: so nothing is learned before.
                self.reach();
                self.let_go(learned);
            }
            _ => self.opened_unread(),
        }
    }

    /// The folder is open, and its host does not know the table yet.
    pub fn opened_unread(&mut self)
        ensures unheard { IsUnheard self.new }
        // The log is read next, unless the operation is to end soon. A lock that is to be released is looked for all the same.
        ensures reads { IsOpening self.old.step → self.old.over ≡ None → IsReading self.new.step }
        ensures leaves { self.old.step ≡ Step.Opening → self.old.standing ≡ Standing.Leaving → self.new.step ≡ Step.Looking }
        ensures told { (why : Why) → IsOpening self.old.step → self.old.over ≡ Some why → self.old.standing ≢ Standing.Leaving → TellsWhy self.new why }
        ensures out_of_turn { (IsOpening self.old.step → ⊥) → BreaksOff (reached self.old) self.new }
        ensures nearer { ComesNearer self.old self.new }
        ensures moves { GoesOn self.old self.new }
        ensures goal { KeepsGoal self.old self.new }
        ensures value { KeepsValue self.old self.new }
        ensures keeps { Keeps self.old self.new }
        ensures release { KeepsRelease self.old self.new }
    {
        self.reach();
        match self.step {
            Step::Opening => self.talk(),
            Step::OpeningToLook => self.look(),
            _ => self.break_off(),
        }
    }

    /// The images can be opened: whatever failed there before is over.
    fn reach(&mut self)
        ensures { self.new ≡ reached self.old }
    {
        self.pace.failure = None;
    }

    /// The folder is open to look.
    fn look(&mut self)
        ensures unheard { IsUnheard self.new }
        ensures reads { self.old.over ≡ None → self.new.step ≡ Step.Looking }
        ensures told { (why : Why) → self.old.over ≡ Some why → TellsWhy self.new why }
        ensures soon { is_some self.old.over ≡ true → orders_left self.new ≤ 12 }
        ensures moves { GoesOn self.old self.new }
        ensures goal { KeepsGoal self.old self.new }
        ensures value { KeepsValue self.old self.new }
        ensures keeps { Keeps self.old self.new }
        ensures release { KeepsRelease self.old self.new }
    {
        match self.over {
            Some(why) => self.give_up(why),
            None => self.step = Step::Looking,
        }
    }

    /// The folder is open under the host number, and is looked at first.
    fn talk(&mut self)
        ensures unheard { IsUnheard self.new }
        ensures reads { self.old.over ≡ None → IsReading self.new.step }
        ensures looks { self.old.standing ≡ Standing.Leaving → self.new.step ≡ Step.Looking }
        ensures told { (why : Why) → self.old.over ≡ Some why → self.old.standing ≢ Standing.Leaving → TellsWhy self.new why }
        ensures soon { is_some self.old.over ≡ true → orders_left self.new ≤ 12 ⊎ is_leaving self.old.standing ≡ true }
        ensures leaves { is_leaving self.old.standing ≡ true → orders_left self.new ≤ 3 + self.old.tries }
        ensures moves { GoesOn self.old self.new }
        ensures goal { KeepsGoal self.old self.new }
        ensures value { KeepsValue self.old self.new }
        ensures keeps { Keeps self.old self.new }
        ensures release { KeepsRelease self.old self.new }
    {
        if self.standing == Standing::Leaving {
            self.step = Step::Looking;
            return;
        }
        if let Some(why) = self.over {
            return self.give_up(why);
        }
        self.step = match (self.standing, self.goal) {
            (Standing::Unasked, Goal::Take { waits: true }) if !self.shares => Step::Tidying,
            (Standing::Unasked | Standing::Left, _) if !self.shares => Step::Looking,
            _ => Step::Learning,
        };
    }

    /// What was ordered is done, and so much is learned by now.
    pub fn learned(&mut self, learned: &Learned<'_>)
        ensures borne_out { IsBorneOut learned.now self.new }
        ensures nearer { ComesNearer self.old self.new }
        ensures pauses { IsPause self.new.step → MayPause learned.now }
        ensures out_of_turn { (IsReading self.old.step → ⊥) → BreaksOff self.old self.new }
        ensures moves { MovesOn learned.now self.old self.new ⊎ Chooses learned.now self.old self.new }
        ensures goal { KeepsGoal self.old self.new }
        ensures value { KeepsValue self.old self.new }
        ensures keeps { Keeps self.old self.new }
        ensures release { KeepsReleaseUntilOut learned.now self.old self.new }
    {
        match self.step {
            Step::Learning | Step::Looking | Step::Tidying => self.read(learned),
            _ => self.break_off(),
        }
    }

    /// The log is read.
    fn read(&mut self, learned: &Learned<'_>)
        requires reads { IsReading self.old.step }
        ensures borne_out { IsBorneOut learned.now self.new }
        ensures nearer { ComesNearer self.old self.new }
        ensures pauses { IsPause self.new.step → MayPause learned.now }
        ensures moves { MovesOn learned.now self.old self.new ⊎ Chooses learned.now self.old self.new }
        ensures goal { KeepsGoal self.old self.new }
        ensures value { KeepsValue self.old self.new }
        ensures keeps { Keeps self.old self.new }
        ensures release { KeepsReleaseUntilOut learned.now self.old self.new }
    {
        self.pace.hear(learned.upto());
        match self.step {
            Step::Learning | Step::Looking if self.standing == Standing::Leaving => self.let_go(
                learned,
            ),
            _ if self.standing == Standing::Unasked => self.seek(learned),
            Step::Learning if self.over.is_none() => self.step = Step::Tidying,
            _ => self.judge(learned),
        }
    }

    /// Nothing was asked for yet.
    fn seek(&mut self, learned: &Learned<'_>)
        requires unasked { self.old.standing ≡ Standing.Unasked }
        ensures unheard { IsUnheard self.new }
        ensures soon { is_some self.old.over ≡ true → orders_left self.new ≡ 0 }
        ensures no_pause { IsPause self.new.step → ⊥ }
        ensures moves { AsksOn learned.now self.old self.new }
        ensures goal { KeepsGoal self.old self.new }
        ensures value { KeepsValue self.old self.new }
        ensures keeps { Keeps self.old self.new }
        ensures release { KeepsRelease self.old self.new }
    {
        if let Some(why) = self.over {
            return self.give_up(why);
        }
        match self.step {
            Step::Looking if is_taken(learned.table, self.name, self.mode) => self.step =
                Step::Learning,
            Step::Learning | Step::Looking => self.step = Step::Tidying,
            _ => self.ask(learned),
        }
    }

    /// Looks in the table for the lock that was asked for.
    fn judge(&mut self, learned: &Learned<'_>)
        ensures borne_out { IsBorneOut learned.now self.new }
        ensures soon { is_some self.old.over ≡ true → orders_left self.new ≤ 12 }
        ensures pauses { IsPause self.new.step → MayPause learned.now }
        ensures moves { GoesOn self.old self.new }
        ensures goal { KeepsGoal self.old self.new }
        ensures value { KeepsValue self.old self.new }
        ensures keeps { Keeps self.old self.new }
        ensures release { KeepsReleaseUntilOut learned.now self.old self.new }
    {
        match find(learned.table, self) {
            Seen::Granted => self.hold(),
            Seen::Waiting => {
                self.standing = Standing::Waiting;
                self.wait(learned);
            }
            Seen::Absent if self.is_out(learned, self.asked) && !self.is_given_in_doubt() =>
                self.drop_sign(learned, Then::End(Outcome::NotHeld(Why::Gone))),
            Seen::Absent => self.wait(learned),
        }
    }

    /// Whether a look may find the lock gone because the session's own release stands in the log. Then a give is to find that.
    fn is_given_in_doubt(&self) -> bool
        ensures { IsTrue result ↔ ((self.now.goal ≡ Goal.Check) × (is_some self.now.release ≡ true)) }
    {
        self.goal == Goal::Check && self.release.is_some()
    }

    pub(crate) fn hold(&mut self)
        ensures held { self.new ≡ record self.old { standing = Standing.Held; step = Step.Ended Outcome.Held } }
    {
        self.standing = Standing::Held;
        self.step = Step::Ended(Outcome::Held);
    }

    /// Whether this command of the session, if there is one, has no further effect.
    pub(crate) fn is_out(&self, learned: &Learned<'_>, request: Option<RequestNumber>) -> bool
        ensures { IsTrue result → IsOut learned.now self.now request }
    {
        match request {
            Some(request) => {
                learned.is_full() || has_heard(learned.table, client_of(self.host), request.get())
            }
            None => true,
        }
    }

    /// The lock is to be released. Nothing is stored, unless by a release that may be in the log.
    pub(crate) fn leave(&mut self)
        ensures leaving { self.new.standing ≡ Standing.Leaving }
        ensures value { self.old.release ≡ None → self.new.value ≡ None }
        ensures rest { self.new ≡ record self.old { standing = Standing.Leaving; value = self.new.value } }
        ensures release { KeepsRelease self.old self.new }
    {
        self.standing = Standing::Leaving;
        if self.release.is_none() {
            self.value = None;
        }
    }

    /// The lock waits, or is not there yet.
    pub(crate) fn wait(&mut self, learned: &Learned<'_>)
        ensures unheard { IsUnheard self.new }
        ensures soon { is_some self.old.over ≡ true → orders_left self.new ≤ 12 }
        ensures pauses { IsPause self.new.step → MayPause learned.now }
        ensures moves { GoesOn self.old self.new }
        ensures goal { KeepsGoal self.old self.new }
        ensures value { KeepsValue self.old self.new }
        ensures keeps { Keeps self.old self.new }
        ensures release { KeepsRelease self.old self.new }
    {
        if let Some(why) = self.over {
            return self.give_up(why);
        }
        match self.goal {
            Goal::Take { waits: true } => self.rest(learned),
            Goal::Take { waits: false } => self.give_up(Why::Taken),
            Goal::Check if self.step_is_look() => self.step = Step::Opening,
            Goal::Check | Goal::Give | Goal::GiveUp(_) => self.step = Step::Ended(Outcome::InDoubt(
                Why::Waits,
            )),
        }
    }

    fn step_is_look(&self) -> bool {
        match self.step {
            Step::Looking => true,
            _ => false,
        }
    }

    /// Pauses before the next look, or learns all where a look may not see all.
    fn rest(&mut self, learned: &Learned<'_>)
        ensures unheard { IsUnheard self.new }
        ensures pauses { IsPause self.new.step → MayPause learned.now }
        ensures moves { GoesOn self.old self.new }
        ensures goal { KeepsGoal self.old self.new }
        ensures value { KeepsValue self.old self.new }
        ensures keeps { Keeps self.old self.new }
        ensures release { KeepsRelease self.old self.new }
    {
        // No lock of a full log is granted any more.
        if learned.is_full() {
            return self.give_up(Why::Failed(Failure::LogFull));
        }
        if learned.left_over || self.pace.is_quiet(self.lock.get()) {
            self.pace.wake();
            self.step = Step::Opening;
        } else {
            self.step = Step::Resting(self.pace.next_pause());
        }
    }

    /// The pause is over.
    pub fn rested(&mut self)
        ensures unheard { IsUnheard self.new }
        ensures opens { (milliseconds : ℕ) → self.old.step ≡ Step.Resting milliseconds → IsOpening self.new.step }
        ensures submits { (milliseconds : ℕ) → self.old.step ≡ Step.Resting milliseconds →
            (self.old.standing ≡ Standing.Unasked) ⊎ (self.old.standing ≡ Standing.Leaving) → self.new.step ≡ Step.Opening }
        ensures rest { self.new ≡ record self.old { step = self.new.step } }
        ensures out_of_turn { (IsPause self.old.step → ⊥) → BreaksOff self.old self.new }
        ensures keeps { Keeps self.old self.new }
        ensures release { KeepsRelease self.old self.new }
    {
        match self.step {
            Step::Yielding => self.submit_again(),
            Step::Resting(_) => {
                self.step = match self.standing {
                    Standing::Unasked | Standing::Leaving => Step::Opening,
                    _ => Step::OpeningToLook,
                };
            }
            _ => self.break_off(),
        }
    }

    /// The command that was outrun is submitted once more.
    fn submit_again(&mut self)
        ensures unheard { IsUnheard self.new }
        ensures rest { self.new ≡ record self.old { step = self.new.step } }
        ensures keeps { Keeps self.old self.new }
        ensures release { KeepsRelease self.old self.new }
    {
        match (self.standing, self.asked, self.release) {
            (Standing::Leaving, _, Some(request)) => self.submit_release(request),
            (Standing::Asked, Some(request), _) => self.submit_ask(request),
            _ => self.break_off(),
        }
    }

    /// The sign of life is removed.
    pub fn dropped(&mut self, learned: &Learned<'_>)
        // The outcome is the one that was borne out when the sign was to be given up.
        ensures ends { (sign : Sign) (outcome : Outcome) → self.old.step ≡ Step.Dropping sign (Then.End outcome) →
            self.new ≡ record self.old { step = Step.Ended outcome } }
        ensures again { (sign : Sign) → self.old.step ≡ Step.Dropping sign Then.AskAgain →
            AsksOn learned.now (record self.old { standing = Standing.Unasked; asked = None }) self.new }
        ensures out_of_turn { ((sign : Sign) (then : Then) → self.old.step ≡ Step.Dropping sign then → ⊥) → BreaksOff self.old self.new }
        ensures goal { KeepsGoal self.old self.new }
        ensures value { KeepsValue self.old self.new }
        ensures nearer { ComesNearer self.old self.new }
        ensures other { ((sign : Sign) (outcome : Outcome) → self.old.step ≡ Step.Dropping sign (Then.End outcome) → ⊥) → IsUnheard self.new }
        ensures same { IsOnSame self.old self.new }
    {
        match self.step {
            Step::Dropping(_, Then::End(outcome)) => self.step = Step::Ended(outcome),
            Step::Dropping(_, Then::AskAgain) => {
                self.standing = Standing::Unasked;
                self.asked = None;
                self.ask_again(learned);
            }
            _ => self.break_off(),
        }
    }

    /// The sign of life is given up, and the table is not known, for this reason.
    pub fn dropped_unread(&mut self, failure: Failure)
        ensures ends { (sign : Sign) (outcome : Outcome) → self.old.step ≡ Step.Dropping sign (Then.End outcome) →
            self.new ≡ record self.old { step = Step.Ended outcome } }
        ensures again { (sign : Sign) → self.old.step ≡ Step.Dropping sign Then.AskAgain →
            GoesOn (record self.old { standing = Standing.Unasked; asked = None }) self.new }
        ensures told { (sign : Sign) → self.old.step ≡ Step.Dropping sign Then.AskAgain → TellsWhy self.new (Why.Failed failure) }
        ensures out_of_turn { ((sign : Sign) (then : Then) → self.old.step ≡ Step.Dropping sign then → ⊥) → BreaksOff self.old self.new }
        ensures goal { KeepsGoal self.old self.new }
        ensures value { KeepsValue self.old self.new }
        ensures other { ((sign : Sign) (outcome : Outcome) → self.old.step ≡ Step.Dropping sign (Then.End outcome) → ⊥) → IsUnheard self.new }
        ensures nearer { ComesNearer self.old self.new }
        ensures same { IsOnSame self.old self.new }
    {
        match self.step {
            Step::Dropping(_, Then::End(outcome)) => self.step = Step::Ended(outcome),
            Step::Dropping(_, Then::AskAgain) => {
                self.standing = Standing::Unasked;
                self.asked = None;
                self.give_up(Why::Failed(failure));
            }
            _ => self.break_off(),
        }
    }

    /// Gives the sign of life up, and then goes on.
    pub(crate) fn drop_sign(&mut self, learned: &Learned<'_>, then: Then)
        ensures then { then_of self.new.step ≡ Some then }
        ensures sign { (sign : Sign) (after : Then) → self.new.step ≡ Step.Dropping sign after → IsGivenUp learned.now self.old.lock sign }
        ensures one { orders_left self.new ≡ 1 }
        ensures rest { self.new ≡ record self.old { step = self.new.step } }
    {
        let sign = Sign {
            lock: self.lock,
            removes: !is_numbered(learned.table, self.lock),
        };
        self.step = Step::Dropping(sign, then);
    }

    /// The folder could not be opened, or what was ordered could not be done.
    pub fn refused(&mut self, failure: Failure, learned: &Learned<'_>)
        ensures borne_out { IsBorneOut learned.now self.new }
        ensures nearer { ComesNearer self.old self.new }
        ensures moves { MovesOn learned.now self.old self.new }
        ensures goal { KeepsGoal self.old self.new }
        ensures value { KeepsValue self.old self.new }
        ensures keeps { Keeps self.old self.new }
        ensures release { KeepsReleaseUntilOut learned.now self.old self.new }
        ensures told { IsReading self.old.step → TellsFailure self.old failure self.new }
        // That a log is full which ends tells something of the command.
        ensures told_submitting { IsSubmitting self.old.step → failure ≢ Failure.LogFull → self.old.over ≡ None → IsFor self.old self.new (Why.Failed failure) }
        ensures out_of_turn { (IsSubmitting self.old.step → ⊥) → (IsReading self.old.step → ⊥) → BreaksOff self.old self.new }
    {
        match self.step {
            Step::Submitting(_) => self.submit_failed(failure, learned),
            Step::Learning | Step::Looking | Step::Tidying => self.fail(failure),
            _ => self.break_off(),
        }
    }

    /// What was ordered could not be done, and the table is not known.
    pub fn refused_unread(&mut self, failure: Failure)
        ensures unheard { IsUnheard self.new }
        ensures nearer { ComesNearer self.old self.new }
        ensures moves { GoesOn self.old self.new }
        ensures goal { KeepsGoal self.old self.new }
        ensures value { KeepsValue self.old self.new }
        ensures keeps { Keeps self.old self.new }
        ensures release { KeepsRelease self.old self.new }
        ensures told { IsReading self.old.step → TellsFailure self.old failure self.new }
        ensures told_submitting { IsSubmitting self.old.step → self.old.over ≡ None → IsFor self.old self.new (Why.Failed failure) }
        // A command that was outrun is put into the log once more, after a pause.
        ensures yields { IsSubmitting self.old.step → self.old.over ≡ None → failure ≡ Failure.Outrun → self.new.step ≡ Step.Yielding }
        ensures out_of_turn { (IsSubmitting self.old.step → ⊥) → (IsReading self.old.step → ⊥) → BreaksOff self.old self.new }
    {
        match self.step {
            Step::Submitting(_) => self.submit_failed_unread(failure),
            Step::Learning | Step::Looking | Step::Tidying => self.fail(failure),
            _ => self.break_off(),
        }
    }

    /// The folder could not be opened, or nothing can be heard of it.
    pub fn closed(&mut self, failure: Failure)
        ensures unheard { IsUnheard self.new }
        ensures nearer { ComesNearer self.old self.new }
        ensures moves { GoesOn self.old self.new }
        ensures goal { KeepsGoal self.old self.new }
        ensures value { KeepsValue self.old self.new }
        ensures keeps { Keeps self.old self.new }
        ensures release { KeepsRelease self.old self.new }
        ensures told { (CannotFail self.old.step → ⊥) → TellsFailure self.old failure self.new }
        ensures out_of_turn { CannotFail self.old.step → BreaksOff self.old self.new }
    {
        match self.step {
            Step::Resting(_) | Step::Yielding | Step::Dropping(..) | Step::Ended(_) =>
                self.break_off(),
            _ => self.fail(failure),
        }
    }

    /// What is told does not go with what was ordered.
    pub(crate) fn break_off(&mut self)
        ensures { BreaksOff self.old self.new }
    {
        self.step = Step::Ended(Outcome::InDoubt(Why::Failed(Failure::Broken)));
    }

    /// Nothing can be learned or asked for now.
    pub(crate) fn fail(&mut self, failure: Failure)
        ensures unheard { IsUnheard self.new }
        ensures soon { is_some self.old.over ≡ true → orders_left self.new ≤ 12 }
        ensures leaves { is_some self.old.over ≡ true → is_leaving self.old.standing ≡ true → orders_left self.new ≡ 0 }
        ensures moves { GoesOn self.old self.new }
        ensures goal { KeepsGoal self.old self.new }
        ensures value { KeepsValue self.old self.new }
        ensures keeps { Keeps self.old self.new }
        ensures release { KeepsRelease self.old self.new }
        ensures told { TellsFailure self.old failure self.new }
    {
        if self.over.is_some() {
            return self.give_up(self.cause(failure));
        }
        if self.is_worth_waiting(failure) {
            if let Some(pause) = self.pace.pause_away() {
                self.pace.failure = Some(failure);
                self.step = Step::Resting(pause);
                return;
            }
        }
        self.give_up(Why::Failed(failure));
    }

    /// Why an operation ends that is to end soon, where this failed last. Who was outrun had no luck in its time.
    pub(crate) fn cause(&self, failure: Failure) -> Why
        ensures failed { self.now.over ≡ None → result ≡ Why.Failed failure }
        ensures late { (over : Why) → self.now.over ≡ Some over → over ≢ Why.Stopped → failure ≢ Failure.Outrun → result ≡ Why.Failed failure }
        ensures stopped { self.now.over ≡ Some Why.Stopped → result ≡ Why.Stopped }
        ensures outrun { (over : Why) → self.now.over ≡ Some over → failure ≡ Failure.Outrun → result ≡ over }
    {
        match self.over {
            Some(over) if failure == Failure::Outrun || over == Why::Stopped => over,
            _ => Why::Failed(failure),
        }
    }

    /// Whether it may pass soon.
    fn is_worth_waiting(&self, failure: Failure) -> bool {
        let waits = match self.goal {
            Goal::Take { .. } => self.standing != Standing::Unasked,
            Goal::Give => true,
            Goal::Check | Goal::GiveUp(_) => false,
        };
        match failure {
            Failure::NoMajority | Failure::Unreadable => waits,
            Failure::HostInUse => self.shares,
            Failure::Outrun => true,
            _ => false,
        }
    }

    /// The operation ends without what it was begun for. What may be in the log is released before, if it was not to be kept.
    pub(crate) fn give_up(&mut self, why: Why)
        ensures unheard { IsUnheard self.new }
        ensures over { self.new.over ≡ self.old.over }
        ensures soon { orders_left self.new ≤ 12 }
        ensures leaves { is_leaving self.old.standing ≡ true → orders_left self.new ≡ 0 }
        ensures unasked { self.old.standing ≡ Standing.Unasked → orders_left self.new ≡ 0 }
        ensures moves { GoesOn self.old self.new }
        ensures goal { KeepsGoal self.old self.new }
        ensures value { KeepsValue self.old self.new }
        ensures keeps { Keeps self.old self.new }
        ensures release { KeepsRelease self.old self.new }
        ensures told { TellsWhy self.new why }
        ensures reason { (waits : Bool) (reason : Why) → self.old.goal ≡ Goal.Take waits → self.new.goal ≡ Goal.GiveUp reason → reason ≡ why }
    {
        match (self.goal, self.standing) {
            (Goal::Check, _) => self.step = Step::Ended(Outcome::Failed(why)),
            (Goal::Give, _) if self.release.is_none() => {
                self.value = None;
                self.standing = Standing::Held;
                self.step = Step::Ended(Outcome::Failed(why));
            }
            (_, Standing::Unasked) => self.step = Step::Ended(Outcome::NotHeld(why)),
            (Goal::Give | Goal::GiveUp(_), _) | (_, Standing::Leaving) => self.step = Step::Ended(
                Outcome::InDoubt(why),
            ),
            (Goal::Take { .. }, _) => {
                self.goal = Goal::GiveUp(why);
                self.leave();
                self.tries = LAST_TRIES;
                self.step = Step::Opening;
            }
        }
    }
}
