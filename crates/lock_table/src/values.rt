ghost use Rattle.std.specs.Prelude.{◌≡◌, ◌<◌, ◌≤◌, ◌↔◌, [], ℕ, List, IfOk, IsTrue, MatchResult, true, false, filter, insert, length, not, remove, set};
ghost use Rattle.std.specs.List.{list_any};
ghost use Rattle.std.specs.List.Sorted.{IsSorted, IsSearchInRange};
ghost use Rattle.std.specs.Ordering.{nat_cmp};
ghost use Rattle.std.specs.Cmp.Lexicographic.{slice_cmp};
ghost use Rattle.lock_command.specs.Name.{same_name};
ghost use Rattle.lock_command.specs.Locks.{is_on};
ghost use Rattle.lock_index.specs.Printed.{printed_cmp};
ghost use Rattle.lock_table.specs.Stored.{is_of, value_in, put_value, is_locked, AreNamed, StandsAt, WouldStandAt};

use lock_command::{LOCKS, LockName, LockValue};
use lock_index::{ByPrintedOrder, has_locks};
use std::alloc::{AllocError, Global};
use std::cmp::Ordering;
use std::marker::Model;

/// A name, and the value that was stored under it last.
#[derive(Clone, Copy, Debug)]
pub struct NamedValue {
    pub name: LockName,
    pub value: LockValue,
}

/// The names under which something was stored, rising. All others have zeros that are valid.
#[derive(Drop)]
pub struct Values {
    entries: Vec<NamedValue>,
}

impl Model for Values {
    ghost use Rattle.std.specs.Prelude.{List, ◌≤◌, vec_capacity};
    ghost use Rattle.lock_command.specs.declared.record.TheConstants.{LOCKS};
    ghost use Rattle.lock_table.specs.declared.values.NamedValue.{NamedValue};

    ghost Value = { List NamedValue };

    ghost view = { λ values. values.entries.items };

    ghost invariant = { λ values. LOCKS ≤ vec_capacity values.entries };
}

impl Values {
    /// No names, and room for the most that there may be.
    pub fn new(alloc: Global) -> Result<Self, AllocError>
        ensures { IfOk result (λ values. values ≡ []) }
    {
        Ok(Values {
            entries: Vec::with_capacity(alloc, LOCKS)?,
        })
    }

    pub fn is_empty(&self) -> bool
        ensures { IsTrue result ↔ (self.now ≡ []) }
    {
        self.entries.is_empty()
    }

    pub fn entries(&self) -> &[NamedValue]
        ensures { result.now ≡ self.now }
    {
        &self.entries
    }

    fn remove(&mut self, at: usize)
        requires { at < length self.old }
        ensures { self.new ≡ remove self.old at }
    {
        let _ = self.entries.remove(at);
    }

    fn insert(&mut self, at: usize, new: NamedValue)
        requires inside { at ≤ length self.old }
        requires room { length self.old < LOCKS }
        ensures { self.new ≡ insert self.old at new }
    {
        let _ = self.entries.insert(at, new);
    }

    fn set(&mut self, at: usize, new: NamedValue)
        requires { at < length self.old }
        ensures { self.new ≡ set self.old at new }
    {
        self.entries[at] = new;
    }
}

/// Where the entry of a name stands, else where it would.
fn place_of(entries: &[NamedValue], name: LockName) -> Result<usize, usize>
    requires { AreNamed entries.now }
    ensures bound { IsSearchInRange result (length entries.now) }
    ensures place { MatchResult result (StandsAt name entries.now) (WouldStandAt name entries.now) }
{
    entries.binary_search_by(
        |entry: &NamedValue| -> Ordering
            ensures { result ≡ slice_cmp nat_cmp entry.now.name name }
        { entry.name.as_bytes().cmp(name.as_bytes()) },
    )
}

/// The value of a name.
pub fn value_in(entries: &[NamedValue], name: LockName) -> LockValue
    requires { AreNamed entries.now }
    ensures { result ≡ value_in entries.now name }
{
    match place_of(entries, name) {
        Ok(at) => entries[at].value,
        Err(_) => LockValue::ZEROS,
    }
}

/// Takes the entry of a name out.
fn forget(values: &mut Values, name: LockName)
    requires { AreNamed values.old }
    ensures { values.new ≡ filter (λ o. not (is_of name o)) values.old }
{
    if let Ok(at) = place_of(values.entries(), name) {
        values.remove(at);
    }
}

/// Stores a value under a name.
pub fn store(values: &mut Values, new: NamedValue)
    requires named { AreNamed values.old }
    requires room { length (filter (λ o. not (is_of new.name o)) values.old) < LOCKS }
    ensures { values.new ≡ put_value values.old new }
{
    match place_of(values.entries(), new.name) {
        Ok(at) => values.set(at, new),
        Err(at) => values.insert(at, new),
    }
}

/// Takes the entry of a name out, if it is without locks. It is the one name that may be.
pub fn keep_if_locked(values: &mut Values, locks: &ByPrintedOrder, name: LockName)
    requires sorted { IsSorted printed_cmp locks.now }
    requires named { AreNamed values.old }
    requires others { (other : List ℕ) → list_any (is_of other) values.old ≡ true → same_name other name ≡ false → list_any (is_on other) locks.now ≡ true }
    ensures { values.new ≡ filter (is_locked locks.now) values.old }
{
    if !has_locks(locks, name) {
        forget(values, name);
    }
}

/// Takes the entries of names without locks out.
pub fn keep_locked(values: &mut Values, locks: &ByPrintedOrder)
    requires { IsSorted printed_cmp locks.now }
    ensures { values.new ≡ filter (is_locked locks.now) values.old }
{
    let mut at = values.entries().len();
    while at > 0 {
        at -= 1;
        if !has_locks(locks, values.entries()[at].name) {
            values.remove(at);
        }
    }
}
