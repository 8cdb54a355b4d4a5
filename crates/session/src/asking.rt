ghost use Rattle.std.specs.Prelude.{◌≡◌, ◌+◌, ◌≢◌, ◌≤◌, ◌^◌, ◌⊎◌, ◌↔◌, IfSome, IsTrue, None, Some, is_some, false, true};
ghost use Rattle.lock_table.specs.declared.known_client.KnownClient.{KnownClient};
ghost use Rattle.session.specs.Bounds.{ComesNearer, IsPause, MayPause, is_leaving, orders_left};
ghost use Rattle.session.specs.Choosing.{IsFree};
ghost use Rattle.session.specs.Moves.{Asks, AsksOn, BreaksOff, GoesOn, KeepsGoal, KeepsValue, MovesOn, TellsSlot};
ghost use Rattle.session.specs.Evidence.{Knows};
ghost use Rattle.session.specs.Keeping.{IsOnSame, Keeps, KeepsRelease, KeepsReleaseUntilOut};
ghost use Rattle.session.specs.Numbers.{client_of};
ghost use Rattle.session.specs.declared.claim.Standing.{Standing};
ghost use Rattle.session.specs.Outcomes.{AsksAt, EndsIn, IsBorneOut, IsFor, IsGivenUpFor, IsSlotOf, IsSubmitting, IsUnheard, IsWithout, RefusesFor, TellsFailure};

use crate::claim::{Choice, Claim, Goal, Sign, Standing, Step, Then};
use crate::evidence::{Seen, asks_at, find, first_of, is_numbered, is_taken, last_request};
use crate::learned::Learned;
use crate::numbers::{NUMBERS, client_of, lock_of};
use crate::outcome::{Failure, Outcome, Why};
use lock_command::{Action, Command, RequestNumber};
use lock_table::{Answer, Refusal, Reply};

impl Claim {
    /// Asks for the lock, unless that is of no use.
    pub(crate) fn ask(&mut self, learned: &Learned<'_>)
        requires unasked { self.old.standing ≡ Standing.Unasked }
        ensures unheard { IsUnheard self.new }
        ensures no_pause { IsPause self.new.step → ⊥ }
        ensures moves { AsksOn learned.now self.old self.new }
        ensures goal { KeepsGoal self.old self.new }
        ensures value { KeepsValue self.old self.new }
        ensures keeps { Keeps self.old self.new }
        ensures release { KeepsRelease self.old self.new }
    {
        if let Some(why) = self.over {
            return self.give_up(why);
        }
        if !self.waits() && is_taken(learned.table, self.name, self.mode) {
            self.step = Step::Ended(Outcome::NotHeld(Why::Taken));
        } else {
            self.choose(learned);
        }
    }

    fn waits(&self) -> bool
        ensures { IsTrue result ↔ (self.now.goal ≢ Goal.Take false) }
    {
        match self.goal {
            Goal::Take { waits } => waits,
            _ => true,
        }
    }

    /// The number that was asked by was not free after all.
    pub(crate) fn ask_again(&mut self, learned: &Learned<'_>)
        requires unasked { self.old.standing ≡ Standing.Unasked }
        ensures unheard { IsUnheard self.new }
        ensures soon { is_some self.old.over ≡ true → orders_left self.new ≡ 0 }
        ensures moves { AsksOn learned.now self.old self.new }
        ensures goal { KeepsGoal self.old self.new }
        ensures value { KeepsValue self.old self.new }
        ensures keeps { Keeps self.old self.new }
        ensures release { KeepsRelease self.old self.new }
    {
        if let Some(why) = self.over {
            return self.give_up(why);
        }
        if self.tries == 0 {
            self.give_up(Why::Refused(Refusal::Stale));
        } else {
            self.tries -= 1;
            self.choose(learned);
        }
    }

    /// The number that was chosen is somebody else's.
    fn ask_on(&mut self, learned: &Learned<'_>)
        requires unasked { self.old.standing ≡ Standing.Unasked }
        ensures unheard { IsUnheard self.new }
        ensures soon { is_some self.old.over ≡ true → orders_left self.new ≡ 0 }
        ensures moves { AsksOn learned.now self.old self.new }
        ensures goal { KeepsGoal self.old self.new }
        ensures value { KeepsValue self.old self.new }
        ensures keeps { Keeps self.old self.new }
        ensures release { KeepsRelease self.old self.new }
    {
        match self.over {
            Some(why) => self.give_up(why),
            None => self.choose(learned),
        }
    }

    /// Chooses the next request whose lock number is free, and takes the sign of life of that.
    pub(crate) fn choose(&mut self, learned: &Learned<'_>)
        requires unasked { self.old.standing ≡ Standing.Unasked }
        ensures unheard { IsUnheard self.new }
        ensures free { (choice : Choice) → self.new.step ≡ Step.Signing choice → IsFree learned.now self.old.host self.old.shares self.old.request choice }
        ensures last { (choice : Choice) → self.new.step ≡ Step.Signing choice → self.new.request ≡ choice.request }
        ensures no_pause { IsPause self.new.step → ⊥ }
        ensures moves { AsksOn learned.now self.old self.new }
        ensures goal { KeepsGoal self.old self.new }
        ensures value { KeepsValue self.old self.new }
        ensures keeps { Keeps self.old self.new }
        ensures release { KeepsRelease self.old self.new }
    {
        match self.free_number(learned) {
            Some(choice) => {
                self.request = choice.request.get();
                self.step = Step::Signing(choice);
            }
            None => self.step = Step::Ended(Outcome::NotHeld(Why::NoNumber)),
        }
    }

    /// The next request whose lock number is free. It is odd for a command that does not queue: so a former run's command of this number, name
    /// and mode is the very same, and is acknowledged where it stands.
    fn free_number(&self, learned: &Learned<'_>) -> Option<Choice>
        ensures free { IfSome result (IsFree learned.now self.now.host self.now.shares self.now.request) }
    {
        let last = self.last_request(learned);
        let first = last + 1 + (last + 1 + u64::from(!self.waits())) % 2;
        for turn in 0..u64::from(NUMBERS) {
            let request = RequestNumber::new(first + 2 * turn)?;
            let lock = lock_of(self.host, self.shares, request.get());
            if !is_numbered(learned.table, lock) {
                return Some(Choice { lock, request });
            }
        }
        None
    }

    /// The last request of the session or of any other process of the host number.
    pub(crate) fn last_request(&self, learned: &Learned<'_>) -> u64
        ensures range { result ≤ 2 ^ 62 }
        ensures last { (self.now.request ≤ result) ⊎ (result ≡ 2 ^ 62) }
        ensures known { (known : KnownClient) → Knows learned.now.table.now (client_of self.now.host) known → known.request ≤ result }
    {
        last_request(learned.table, client_of(self.host))
            .max(self.request)
            .min(RequestNumber::LAST)
    }

    /// The sign of life is this session's.
    pub fn signed(&mut self, learned: &Learned<'_>)
        ensures borne_out { IsBorneOut learned.now self.new }
        ensures asks { (choice : Choice) → self.old.step ≡ Step.Signing choice → self.old.over ≡ None → Asks learned.now choice self.old self.new }
        ensures submits { (choice : Choice) → self.old.step ≡ Step.Signing choice → self.old.over ≡ None → IsSubmitting self.new.step }
        ensures ends { (choice : Choice) (why : Why) → self.old.step ≡ Step.Signing choice → self.old.over ≡ Some why →
            EndsIn self.new (Outcome.NotHeld why) × (self.new ≡ record self.old { lock = choice.lock; standing = Standing.Unasked; step = self.new.step }) }
        ensures out_of_turn { ((choice : Choice) → self.old.step ≡ Step.Signing choice → ⊥) → BreaksOff self.old self.new }
        ensures nearer { ComesNearer self.old self.new }
        ensures same { IsOnSame self.old self.new }
    {
        match self.step {
            Step::Signing(choice) => self.go_on_with(&choice, learned),
            _ => self.break_off(),
        }
    }

    /// The claim has this lock number now.
    fn go_on_with(&mut self, choice: &Choice, learned: &Learned<'_>)
        ensures borne_out { IsBorneOut learned.now self.new }
        ensures asks { self.old.over ≡ None → Asks learned.now choice.now self.old self.new }
        ensures submits { self.old.over ≡ None → IsSubmitting self.new.step }
        ensures ends { (why : Why) → self.old.over ≡ Some why →
            EndsIn self.new (Outcome.NotHeld why) × (self.new ≡ record self.old { lock = choice.now.lock; standing = Standing.Unasked; step = self.new.step }) }
        ensures soon { is_some self.old.over ≡ true → orders_left self.new ≡ 1 }
        ensures same { IsOnSame self.old self.new }
    {
        self.lock = choice.lock;
        match self.over {
            Some(why) => {
                self.standing = Standing::Unasked;
                self.drop_sign(learned, Then::End(Outcome::NotHeld(why)));
            }
            None => {
                self.release = None;
                self.value = None;
                self.slot = None;
                self.since = learned.upto();
                self.pace.outrun = 0;
                self.submit_ask(choice.request);
            }
        }
    }

    /// Asks for the lock by this request.
    pub(crate) fn submit_ask(&mut self, request: RequestNumber)
        ensures unheard { IsUnheard self.new }
        ensures submits { IsSubmitting self.new.step }
        ensures rest { self.new ≡ record self.old { asked = Some request; standing = Standing.Asked; step = self.new.step } }
        ensures keeps { self.old.asked ≡ Some request → Keeps self.old self.new }
        ensures release { KeepsRelease self.old self.new }
        ensures same { IsOnSame self.old self.new }
    {
        self.asked = Some(request);
        self.standing = Standing::Asked;
        self.step = Step::Submitting(Command {
            host: self.host,
            client: client_of(self.host),
            request,
            action: Action::Enqueue {
                lock: self.lock,
                name: self.name,
                mode: self.mode,
                no_queue: !self.waits(),
            },
        });
    }

    /// Somebody else has the sign of life of the number that was chosen.
    pub fn sign_is_held(&mut self, learned: &Learned<'_>)
        ensures unheard { IsUnheard self.new }
        ensures nearer { ComesNearer self.old self.new }
        ensures again { (choice : Choice) → self.old.step ≡ Step.Signing choice →
            AsksOn learned.now (record self.old { standing = Standing.Unasked }) self.new }
        ensures out_of_turn { ((choice : Choice) → self.old.step ≡ Step.Signing choice → ⊥) → BreaksOff self.old self.new }
        ensures goal { KeepsGoal self.old self.new }
        ensures value { KeepsValue self.old self.new }
        ensures same { IsOnSame self.old self.new }
    {
        match self.step {
            Step::Signing(_) => {
                self.standing = Standing::Unasked;
                self.ask_on(learned);
            }
            _ => self.break_off(),
        }
    }

    /// The sign of life cannot be made or locked.
    pub fn sign_failed(&mut self)
        ensures unheard { IsUnheard self.new }
        ensures told { (choice : Choice) → self.old.step ≡ Step.Signing choice → TellsFailure self.old Failure.NoLock self.new }
        ensures out_of_turn { ((choice : Choice) → self.old.step ≡ Step.Signing choice → ⊥) → BreaksOff self.old self.new }
        ensures nearer { ComesNearer self.old self.new }
        ensures moves { GoesOn self.old self.new }
        ensures goal { KeepsGoal self.old self.new }
        ensures value { KeepsValue self.old self.new }
        ensures keeps { Keeps self.old self.new }
        ensures release { KeepsRelease self.old self.new }
    {
        match self.step {
            Step::Signing(_) => self.fail(Failure::NoLock),
            _ => self.break_off(),
        }
    }

    /// The command stands in the log, and this was the reply to it.
    pub fn replied(&mut self, reply: &Reply, learned: &Learned<'_>)
        ensures borne_out { IsBorneOut learned.now self.new }
        ensures nearer { ComesNearer self.old self.new }
        ensures slot { self.new.slot ≡ self.old.slot ⊎ IfSome self.new.slot (IsSlotOf learned.now self.old) }
        ensures pauses { IsPause self.new.step → MayPause learned.now }
        // Why a lock was not granted is what the reply says.
        ensures refused { (why : Why) → self.old.standing ≡ Standing.Asked → EndsIn self.new (Outcome.NotHeld why) → RefusesFor reply.now why }
        // Why a lock is not held that was released is what the operation was for.
        ensures given_up { (why : Why) → self.old.standing ≡ Standing.Leaving → EndsIn self.new (Outcome.NotHeld why) → IsGivenUpFor self.old.goal why }
        ensures out_of_turn { (IsSubmitting self.old.step → ⊥) → BreaksOff self.old self.new }
        ensures moves { MovesOn learned.now self.old self.new ⊎ TellsSlot self.old self.new }
        ensures goal { KeepsGoal self.old self.new }
        ensures value { KeepsValue self.old self.new }
        ensures keeps { Keeps self.old (record self.new { slot = self.old.slot }) }
        ensures release { KeepsReleaseUntilOut learned.now self.old self.new }
    {
        match self.step {
            Step::Submitting(_) if self.standing == Standing::Leaving => self.release_replied(
                learned,
            ),
            Step::Submitting(command) => self.ask_replied(&command, reply, learned),
            _ => self.break_off(),
        }
    }

    fn ask_replied(&mut self, command: &Command, reply: &Reply, learned: &Learned<'_>)
        ensures borne_out { IsBorneOut learned.now self.new }
        ensures soon { is_some self.old.over ≡ true → orders_left self.new ≤ 12 }
        ensures slot { self.new.slot ≡ self.old.slot ⊎ IfSome self.new.slot (AsksAt learned.now self.old command.now) }
        ensures pauses { IsPause self.new.step → MayPause learned.now }
        ensures refused { (why : Why) → self.old.standing ≢ Standing.Unasked → EndsIn self.new (Outcome.NotHeld why) → RefusesFor reply.now why }
        ensures moves { MovesOn learned.now self.old self.new ⊎ TellsSlot self.old self.new }
        ensures goal { KeepsGoal self.old self.new }
        ensures value { KeepsValue self.old self.new }
        ensures keeps { Keeps self.old (record self.new { slot = self.old.slot }) }
        ensures release { KeepsReleaseUntilOut learned.now self.old self.new }
    {
        let ours = self.asked_at(command, learned);
        match find(learned.table, self) {
            Seen::Absent if self.is_out(learned, self.asked) => self.drop_sign(
                learned,
                self.after(reply),
            ),
            Seen::Absent => self.give_up(Why::Gone),
            Seen::Granted if ours.is_some() => {
                self.slot = ours;
                self.hold();
            }
            Seen::Waiting if ours.is_some() => {
                self.slot = ours;
                self.standing = Standing::Waiting;
                self.wait(learned);
            }
            // The command of a former run has taken it in this moment, at a slot that is not known.
            Seen::Granted | Seen::Waiting => self.give_over(learned),
        }
    }

    /// Releases a lock that is another command's, and then asks again.
    fn give_over(&mut self, learned: &Learned<'_>)
        ensures unheard { IsUnheard self.new }
        ensures soon { is_some self.old.over ≡ true → orders_left self.new ≤ 12 }
        ensures no_pause { IsPause self.new.step → ⊥ }
        ensures moves { MovesOn learned.now self.old self.new }
        ensures goal { KeepsGoal self.old self.new }
        ensures value { KeepsValue self.old self.new }
        ensures keeps { Keeps self.old self.new }
        ensures release { KeepsReleaseUntilOut learned.now self.old self.new }
    {
        if let Some(why) = self.over {
            return self.give_up(why);
        }
        self.standing = Standing::Leaving;
        self.put_release(learned);
    }

    /// Where the command that asked for the lock stands, if that is the first one of its number.
    fn asked_at(&self, command: &Command, learned: &Learned<'_>) -> Option<u64>
        ensures { IfSome result (AsksAt learned.now self.now command.now) }
    {
        let slot = first_of(learned, self.since, command.client, command.request)?;
        if asks_at(learned, slot, self) {
            Some(slot)
        } else {
            None
        }
    }

    /// What is done where the table has not got the lock.
    fn after(&self, reply: &Reply) -> Then
        ensures without { IsWithout result }
        ensures refused { (why : Why) → result ≡ Then.End (Outcome.NotHeld why) → RefusesFor reply.now why }
    {
        match reply.answer {
            Answer::Refused(Refusal::NotQueued) => Then::End(Outcome::NotHeld(Why::Taken)),
            Answer::Refused(Refusal::Stale | Refusal::LockInUse) => Then::AskAgain,
            Answer::Refused(refusal) => Then::End(Outcome::NotHeld(Why::Refused(refusal))),
            // The reply to another command of this number.
            _ => Then::AskAgain,
        }
    }

    /// The command was not acknowledged. That a log without an end is full tells nothing of the command.
    pub(crate) fn submit_failed(&mut self, failure: Failure, learned: &Learned<'_>)
        ensures borne_out { IsBorneOut learned.now self.new }
        ensures told { failure ≢ Failure.LogFull → self.old.over ≡ None → IsFor self.old self.new (Why.Failed failure) }
        ensures soon { is_some self.old.over ≡ true → is_leaving self.old.standing ≡ false → orders_left self.new ≤ 12 }
        ensures leaves { is_some self.old.over ≡ true → is_leaving self.old.standing ≡ true → orders_left self.new ≤ 1 + self.old.tries }
        ensures moves { MovesOn learned.now self.old self.new }
        ensures goal { KeepsGoal self.old self.new }
        ensures value { KeepsValue self.old self.new }
        ensures keeps { Keeps self.old self.new }
        ensures release { KeepsReleaseUntilOut learned.now self.old self.new }
    {
        if failure == Failure::LogFull && learned.slots.is_some() {
            return self.meet_end(learned);
        }
        self.submit_failed_unread(failure);
    }

    /// The same, where it is not known what the log and the table show.
    pub(crate) fn submit_failed_unread(&mut self, failure: Failure)
        ensures unheard { IsUnheard self.new }
        ensures told { self.old.over ≡ None → IsFor self.old self.new (Why.Failed failure) }
        ensures yields { self.old.over ≡ None → failure ≡ Failure.Outrun → self.new.step ≡ Step.Yielding }
        ensures soon { is_some self.old.over ≡ true → is_leaving self.old.standing ≡ false → orders_left self.new ≤ 12 }
        ensures leaves { is_some self.old.over ≡ true → is_leaving self.old.standing ≡ true → orders_left self.new ≤ 1 + self.old.tries }
        ensures moves { GoesOn self.old self.new }
        ensures goal { KeepsGoal self.old self.new }
        ensures value { KeepsValue self.old self.new }
        ensures keeps { Keeps self.old self.new }
        ensures release { KeepsRelease self.old self.new }
    {
        let is_outrun = failure == Failure::Outrun;
        match self.over {
            None if is_outrun => {
                self.pace.fall_back();
                self.step = Step::Yielding;
            }
            None => self.fail(failure),
            Some(why) if is_outrun => self.try_once_more(why),
            Some(why) => self.give_up(why),
        }
    }

    /// The log is full, and the command is not in it.
    fn meet_end(&mut self, learned: &Learned<'_>)
        ensures borne_out { IsBorneOut learned.now self.new }
        ensures soon { is_some self.old.over ≡ true → orders_left self.new ≤ 12 }
        ensures leaves { is_some self.old.over ≡ true → is_leaving self.old.standing ≡ true → orders_left self.new ≡ 0 }
        ensures moves { MovesOn learned.now self.old self.new }
        ensures goal { KeepsGoal self.old self.new }
        ensures value { KeepsValue self.old self.new }
        ensures keeps { Keeps self.old self.new }
        ensures release { KeepsReleaseUntilOut learned.now self.old self.new }
    {
        let why = Why::Failed(Failure::LogFull);
        if !learned.is_full() {
            return self.break_off();
        }
        if self.standing == Standing::Leaving {
            self.release = None;
            self.give_up(why);
        } else {
            match find(learned.table, self) {
                Seen::Absent => self.drop_sign(learned, Then::End(Outcome::NotHeld(why))),
                _ => self.give_up(why),
            }
        }
    }
}
