ghost use Rattle.std.specs.Prelude.{◌≡◌, ◌≤◌, ◌<◌, IfOk, IfSome, [], length, filter, not, ◌&&◌, Bool, true, false, ℕ, List, IsTrue, Some, if◌then◌else◌};
ghost use Rattle.std.specs.List.{list_any};
ghost use Rattle.std.specs.List.Sorted.{IsSorted};
ghost use Rattle.lock_command.specs.declared.record.LockRecord.{LockRecord};
ghost use Rattle.lock_table.specs.declared.values.NamedValue.{NamedValue};
ghost use Rattle.lock_command.specs.Locks.{is_on, is_through};
ghost use Rattle.lock_command.specs.declared.state.LockState.{LockState};
ghost use Rattle.lock_command.specs.Command.{is_carried};
ghost use Rattle.lock_table.specs.Apply.{carried, done, replied};
ghost use Rattle.lock_index.specs.Printed.{printed_cmp};
ghost use Rattle.lock_table.specs.Picture.{HasZeros};
ghost use Rattle.lock_index.specs.Placed.{in_order};
ghost use Rattle.lock_table.specs.Stored.{is_of, value_in, put_value, put_if, AreNamed, IsValued, spoiled_by, entry_of, entry_by, gives_nothing, is_locked, may_lose, asked_lock, asked_value_by};
ghost use Rattle.lock_table.specs.Values.{zeros, invalid, spoiled, stored, is_downward, is_state, of_locked, values_after, returned};
ghost use Rattle.lock_command.specs.State.{is_writer};

use crate::locks::Locks;
use crate::reply::{is_granted, is_released, is_state};
use crate::values;
use crate::values::{NamedValue, Values, store};
use lock_command::{
    Action, Answer, ClientNumber, HostNumber, LOCKS, LockName, LockRecord, LockState, LockValue,
    Mode, Reply, ValueBytes, downward, writes_alone,
};
use lock_index::ByPrintedOrder;
use std::alloc::{AllocError, Global};
use std::marker::Model;

/// The locks, and the values of their names.
#[derive(Drop)]
pub struct ValuedLocks {
    locks: Locks,
    values: Values,
}

impl Model for ValuedLocks {
    ghost use Rattle.lock_table.specs.Stored.{Valued, IsValued};

    ghost Value = { Valued };

    ghost view = { λ valued. record { locks = valued.locks; entries = valued.values } };

    ghost invariant = { λ valued. IsValued valued.locks valued.values };
}

/// The value that a reply returns: the name's value or none, by what the command did.
fn returned(answer: Answer, value: LockValue) -> Option<LockValue>
    ensures { result ≡ returned answer value }
{
    match answer {
        Answer::Granted | Answer::State(LockState::Granted(_) | LockState::Converting { .. }) =>
            Some(value),
        _ => None,
    }
}

/// Whether a release of a lock in this state stores the value that it is given.
fn is_writer(state: LockState) -> bool
    ensures { result ≡ is_writer state }
{
    match state {
        LockState::Granted(mode) | LockState::Converting { held: mode, .. } => writes_alone(mode),
        LockState::Waiting(_) => false,
    }
}

fn is_downward(wanted: Mode, state: LockState) -> bool
    ensures { result ≡ is_downward wanted state }
{
    match state {
        LockState::Granted(mode) | LockState::Converting { held: mode, .. } => {
            downward(mode, wanted)
        }
        LockState::Waiting(_) => false,
    }
}

/// Whether a purge of the host takes this lock away, and the lock holds PW or EX.
fn is_spoilt(lock: &LockRecord, host: HostNumber) -> bool
    ensures { result ≡ (is_through host lock.now && is_writer lock.now.state) }
{
    lock.host == host && is_writer(lock.state)
}

/// Whether an action changes no value: it gives none and makes none invalid.
fn gives_nothing(action: &Action) -> bool
    ensures { result ≡ gives_nothing action.now }
{
    match action {
        Action::Convert { value, .. } | Action::Release { value, .. } => value.is_none(),
        Action::Purge(_) => false,
        Action::CarryLock { .. } => false,
        Action::Enqueue { .. }
        | Action::Cancel(_)
        | Action::Status(_)
        | Action::QuietPurge(_)
        | Action::Forget(_)
        | Action::CarryClient(_) => true,
    }
}

/// Makes the value of a name invalid.
fn invalidate(values: &mut Values, name: LockName)
    requires named { AreNamed values.old }
    requires room { length (filter (λ o. not (is_of name o)) values.old) < LOCKS }
    ensures { values.new ≡ put_value values.old (record { name = name; value = invalid (value_in values.old name) }) }
{
    let now = values::value_in(values.entries(), name);
    let bytes = now.bytes;
    let value = LockValue {
        bytes,
        valid: false,
    };
    store(values, NamedValue { name, value });
}

/// For a purge: makes the value of each name invalid that loses a lock holding PW or EX.
fn spoil(values: &mut Values, locks: &ByPrintedOrder, count: usize, host: HostNumber)
    requires count { count ≡ length locks.now }
    requires few { count ≤ LOCKS }
    requires valued { IsValued locks.now values.old }
    ensures values { value_in values.new ≡ spoiled (value_in values.old) locks.now host }
    ensures valued { IsValued locks.now values.new }
{
    if !locks.has_writer() {
        return;
    }
    for at in 0..count {
        let record = locks.get(at);
        if is_spoilt(record, host) {
            invalidate(values, record.name);
        }
    }
}

/// Makes those values invalid that a command makes invalid: only a purge does.
fn spoil_by(values: &mut Values, locks: &ByPrintedOrder, action: &Action)
    requires valued { IsValued locks.now values.old }
    ensures values { value_in values.new ≡ spoiled_by (value_in values.old) locks.now action.now }
    ensures valued { IsValued locks.now values.new }
    ensures few { length locks.now ≤ LOCKS }
{
    let count = locks.len();
    if let Action::Purge(host) = action {
        spoil(values, locks, count, *host);
    }
}

/// The entry that stores the given bytes as the value of the lock's name, if bytes are given and `lets` is true.
fn entry_of(lets: bool, own: &LockRecord, value: &Option<ValueBytes>) -> Option<NamedValue>
    ensures { (f : LockState → Bool) → lets ≡ f own.now.state → result ≡ entry_of f (Some own.now) value.now }
{
    let given = (*value)?;
    if !lets {
        return None;
    }
    let bytes = given.get();
    Some(NamedValue {
        name: own.name,
        value: LockValue { bytes, valid: true },
    })
}

/// The value that a command stores, by its answer, if it stores one.
fn entry_by(found: &Option<LockRecord>, action: &Action, answer: &Answer) -> Option<NamedValue>
    ensures { result ≡ entry_by found.now action.now answer.now }
{
    let Some(own) = found else {
        return None;
    };
    match action {
        Action::Convert { mode, value, .. } if is_granted(answer) => {
            entry_of(is_downward(*mode, own.state), own, value)
        }
        Action::Release { value, .. } if is_released(answer) => {
            entry_of(is_writer(own.state), own, value)
        }
        _ => None,
    }
}

/// Stores what a command stores that was answered so.
fn store_by(values: &mut Values, found: &Option<LockRecord>, action: &Action, answer: &Answer)
    requires named { AreNamed values.old }
    requires room { (e : NamedValue) → entry_by found.now action.now answer.now ≡ Some e → length (filter (λ o. not (is_of e.name o)) values.old) < LOCKS }
    ensures { values.new ≡ put_if values.old (entry_by found.now action.now answer.now) }
{
    if let Some(new) = entry_by(found, action, answer) {
        store(values, new);
    }
}

/// Stores a value that is carried over under its name. Zeros are left out while nothing is stored: each name has them.
fn store_carried(values: &mut Values, new: NamedValue)
    requires named { AreNamed values.old }
    requires room { length (filter (λ o. not (is_of new.name o)) values.old) < LOCKS }
    ensures values { value_in values.new ≡ value_in (put_value values.old new) }
    ensures valued { (locks : List LockRecord) → IsValued locks (put_value values.old new) → IsValued locks values.new }
    // So commands on a table that stores no values look none up, also after a renewal.
    ensures zeros { values.old ≡ [] → new.value ≡ zeros → values.new ≡ [] }
{
    if values.is_empty() && new.value == LockValue::ZEROS {
        return;
    }
    store(values, new);
}

/// Lets the values of names go that a command took the last lock of.
fn keep_locked(
    values: &mut Values,
    locks: &ByPrintedOrder,
    found: &Option<LockRecord>,
    action: &Action,
)
    requires sorted { IsSorted printed_cmp locks.now }
    requires named { AreNamed values.old }
    requires others { (name : List ℕ) → list_any (is_of name) values.old ≡ true → may_lose found.now action.now name ≡ false → list_any (is_on name) locks.now ≡ true }
    ensures { values.new ≡ filter (is_locked locks.now) values.old }
{
    match action {
        Action::Release { .. } | Action::Cancel(_) => {
            if let Some(own) = found {
                values::keep_if_locked(values, locks, own.name);
            }
        }
        Action::Purge(_) | Action::QuietPurge(_) => values::keep_locked(values, locks),
        _ => {}
    }
}

impl ValuedLocks {
    /// No locks, and room for the most that there may be.
    pub fn new(alloc: Global) -> Result<Self, AllocError>
        ensures locks { IfOk result (λ valued. valued.locks ≡ []) }
        ensures entries { IfOk result (λ valued. valued.entries ≡ []) }
    {
        Ok(ValuedLocks {
            locks: Locks::new(alloc)?,
            values: Values::new(alloc)?,
        })
    }

    /// The locks in printed order.
    pub fn printed(&self) -> &ByPrintedOrder
        ensures locks { result.now ≡ self.now.locks }
    {
        self.locks.printed()
    }

    /// The names under which something was stored, rising.
    pub fn entries(&self) -> &[NamedValue]
        ensures entries { result.now ≡ self.now.entries }
        ensures named { AreNamed self.now.entries }
    {
        self.values.entries()
    }

    /// The lock that a command is about, unless it is to be a new one.
    fn asked_lock(&self, action: &Action) -> Option<LockRecord>
        ensures found { result ≡ asked_lock self.now.locks action.now }
    {
        match action {
            Action::Convert { lock, .. }
            | Action::Release { lock, .. }
            | Action::Cancel(lock)
            | Action::Status(lock) => self.locks.lock_in(*lock),
            _ => None,
        }
    }

    /// Whether nothing is stored, and the action leaves it so.
    fn leaves_zeros(&self, action: &Action) -> bool
        ensures empty { IsTrue result → self.now.entries ≡ [] }
        ensures nothing { IsTrue result → gives_nothing action.now ≡ true }
    {
        self.values.is_empty() && gives_nothing(action)
    }

    /// The value of the name that a command is about, which had a lock, or is to have one.
    fn asked_value(&self, found: &Option<LockRecord>, action: &Action) -> LockValue
        ensures value { result ≡ asked_value_by (value_in self.now.entries) found.now action.now }
    {
        match action {
            Action::Enqueue { name, .. } | Action::CarryLock { name, .. } => {
                values::value_in(self.values.entries(), *name)
            }
            Action::Convert { .. } | Action::Status(_) => match found {
                Some(own) => values::value_in(self.values.entries(), own.name),
                None => LockValue::ZEROS,
            },
            _ => LockValue::ZEROS,
        }
    }

    /// The value that a reply returns. It is looked up only if the answer returns one.
    fn told_value(
        &self,
        found: &Option<LockRecord>,
        action: &Action,
        answer: Answer,
    ) -> Option<LockValue>
        ensures { result ≡ returned answer (asked_value_by (value_in self.now.entries) found.now action.now) }
    {
        match answer {
            Answer::Granted | Answer::State(LockState::Granted(_) | LockState::Converting { .. }) =>
                { Some(self.asked_value(found, action)) }
            _ => None,
        }
    }

    /// Carries a lock over, and the value of its name.
    fn carry(&mut self, new: LockRecord, value: LockValue) -> Reply
        ensures locks { self.new.locks ≡ in_order printed_cmp (carried self.old.locks new).locks }
        ensures values { value_in self.new.entries ≡ of_locked (carried self.old.locks new).locks (if is_state (carried self.old.locks new).answer then stored (value_in self.old.entries) new.name value else value_in self.old.entries) }
        ensures zeros { HasZeros self.new.locks (value_in self.new.entries) }
        ensures reply { result ≡ record { answer = (carried self.old.locks new).answer; value = returned (carried self.old.locks new).answer (value_in self.new.entries new.name) } }
    {
        let name = new.name;
        let answer = self.locks.carry(new);
        if !is_state(&answer) {
            return Reply {
                answer,
                value: None,
            };
        }
        store_carried(&mut self.values, NamedValue { name, value });
        Reply {
            answer,
            value: returned(answer, value),
        }
    }

    /// Does what a command asks of a client through a host, or carries over.
    pub fn act(&mut self, host: HostNumber, client: ClientNumber, action: &Action) -> Reply
        ensures locks { self.new.locks ≡ in_order printed_cmp (done self.old.locks host client action.now).locks }
        ensures values { value_in self.new.entries ≡ values_after (value_in self.old.entries) self.old.locks (done self.old.locks host client action.now).locks action.now (done self.old.locks host client action.now).answer }
        ensures zeros { HasZeros self.new.locks (value_in self.new.entries) }
        ensures reply { result ≡ replied (value_in self.new.entries) self.old.locks action.now (done self.old.locks host client action.now).answer }
    {
        match action {
            Action::CarryLock {
                lock,
                name,
                state,
                value,
            } => {
                let new = LockRecord {
                    lock: *lock,
                    client,
                    host,
                    name: *name,
                    state: *state,
                };
                self.carry(new, *value)
            }
            Action::CarryClient(reply) => self.answer_again(reply),
            _ => self.serve(host, client, action),
        }
    }

    /// Gives the reply that a client had, and changes nothing.
    fn answer_again(&self, reply: &Reply) -> Reply
        ensures printed { in_order printed_cmp self.now.locks ≡ self.now.locks }
        ensures zeros { HasZeros self.now.locks (value_in self.now.entries) }
        ensures values { value_in self.now.entries ≡ of_locked self.now.locks (value_in self.now.entries) }
        ensures reply { result ≡ reply.now }
    {
        // Called for its contract only: the locks are in printed order.
        let _ = self.locks.printed();
        *reply
    }

    /// Does what a client asks through a host.
    fn serve(&mut self, host: HostNumber, client: ClientNumber, action: &Action) -> Reply
        requires asked { is_carried action.now ≡ false }
        ensures locks { self.new.locks ≡ in_order printed_cmp (done self.old.locks host client action.now).locks }
        ensures values { value_in self.new.entries ≡ values_after (value_in self.old.entries) self.old.locks (done self.old.locks host client action.now).locks action.now (done self.old.locks host client action.now).answer }
        ensures zeros { HasZeros self.new.locks (value_in self.new.entries) }
        ensures reply { result ≡ replied (value_in self.new.entries) self.old.locks action.now (done self.old.locks host client action.now).answer }
    {
        if self.leaves_zeros(action) {
            let answer = self.locks.act(host, client, action);
            return Reply {
                answer,
                value: returned(answer, LockValue::ZEROS),
            };
        }
        let found = self.asked_lock(action);
        spoil_by(&mut self.values, self.locks.printed(), action);
        let answer = self.locks.act(host, client, action);
        store_by(&mut self.values, &found, action, &answer);
        keep_locked(&mut self.values, self.locks.printed(), &found, action);
        let value = self.told_value(&found, action, answer);
        Reply { answer, value }
    }
}
