ghost use Rattle.std.specs.Prelude.{◌≡◌, ◌+◌, ◌-◌, ◌<◌, ◌≤◌, ℕ, IfOk, IfSome, IsSome, IsTrue, [], length, filter, insert, remove, set, slice_index, slice_index_or, cond, nat_lt, not, true, false};
ghost use Rattle.std.specs.List.{slice_get, AllWithin};
ghost use Rattle.std.specs.List.Sorted.{IsSorted, IsPartitionPoint};
ghost use Rattle.lock_command.specs.declared.record.LockRecord.{LockRecord};
ghost use Rattle.lock_command.specs.Locks.{is_through};
ghost use Rattle.lock_index.specs.Indexed.{number_cmp};
ghost use Rattle.lock_command.specs.Locks.{is_lock, lock_in, without, put, IsDistinct};

use crate::by_printed_order::take_place;
use crate::hosts::Hosts;
use crate::narrowing::{lower, passed_of_three};
use lock_command::{HostNumber, LOCKS, LockNumber, LockRecord};
use std::alloc::{AllocError, Global};
use std::cell::Cell;
use std::marker::Model;

/// Records in the order of their lock numbers. Each keeps its place in memory while others come and go; only the order is
/// shifted.
#[derive(Drop)]
pub struct ByLockNumber {
    /// The records, by place. A record at a free place means nothing.
    records: Vec<LockRecord>,
    /// The places in the order of their records.
    order: Vec<u8>,
    /// The places that were given up.
    free: Vec<u8>,
    /// The lock numbers, by place, and 0 at each place without a lock.
    lock_numbers: Vec<u16>,
    /// For the low byte of a lock number the place of the lock with that byte that was put in, replaced or found last. No contract speaks
    /// of it: the number at the place tells whether it is right.
    hints: [u8; 256],
    /// The hosts that the locks were enqueued through, by place.
    hosts: Hosts,
}

impl Model for ByLockNumber {
    ghost use Rattle.std.specs.Prelude.{List, ◌≡◌, ◌≤◌, vec_len, vec_capacity};
    ghost use Rattle.lock_command.specs.declared.record.TheConstants.{LOCKS};
    ghost use Rattle.lock_command.specs.declared.record.LockRecord.{LockRecord};
    ghost use Rattle.lock_index.specs.Shelved.{IsShelved, IsNumbered, IsHosted, at_places};

    ghost Value = { List LockRecord };

    ghost view = { λ numbers. at_places numbers.records.items numbers.order.items };

    ghost invariant = { λ numbers. IsShelved numbers.records.items numbers.order.items numbers.free.items × (vec_len numbers.records ≤ LOCKS) × (LOCKS ≤ vec_capacity numbers.records) × (LOCKS ≤ vec_capacity numbers.order) × (LOCKS ≤ vec_capacity numbers.free) × (vec_len numbers.lock_numbers ≡ LOCKS) × IsNumbered numbers.records.items numbers.order.items numbers.lock_numbers.items × IsHosted numbers.records.items numbers.order.items numbers.hosts };
}

impl ByLockNumber {
    /// No records, and room for the most that there may be.
    pub fn new(alloc: Global) -> Result<Self, AllocError>
        ensures { IfOk result (λ numbers. numbers ≡ []) }
    {
        Ok(ByLockNumber {
            records: Vec::with_capacity(alloc, LOCKS)?,
            order: Vec::with_capacity(alloc, LOCKS)?,
            free: Vec::with_capacity(alloc, LOCKS)?,
            lock_numbers: Vec::from_elem(alloc, 0, LOCKS)?,
            hints: [0; 256],
            hosts: Hosts::new(),
        })
    }

    fn len(&self) -> usize
        ensures len { result ≡ length self.now }
        ensures few { result ≤ LOCKS }
    {
        self.order.len()
    }

    /// The record at this index, in the order of lock numbers.
    fn get(&self, at: usize) -> &LockRecord
        requires { at < length self.now }
        ensures lock { result.now ≡ slice_index_or self.now at result.now }
        ensures few { at < LOCKS }
    {
        &self.records[usize::from(self.order[at])]
    }

    /// The lock number of the record at this index.
    fn number(&self, at: usize) -> u16
        requires { at < length self.now }
        ensures { (d : LockRecord) → result ≡ (slice_index_or self.now at d).lock }
    {
        self.lock_numbers[usize::from(self.order[at])]
    }

    /// The record at this index, or `None` past the last.
    fn record_at(&self, at: usize) -> Option<LockRecord>
        ensures { result ≡ slice_get self.now at }
    {
        if at < self.len() {
            Some(*self.get(at))
        } else {
            None
        }
    }

    /// Puts a record in.
    fn insert(&mut self, at: usize, new: LockRecord)
        requires inside { at ≤ length self.old }
        requires room { length self.old < LOCKS }
        ensures { self.new ≡ insert self.old at new }
    {
        let lock = new.lock;
        let host = new.host;
        let place = take_place(&mut self.records, &mut self.free, new);
        self.hosts.set(usize::from(place), host);
        self.lock_numbers[usize::from(place)] = lock.get();
        self.hints[low_byte(lock)] = place;
        let _ = self.order.insert(at, place);
    }

    /// Replaces the record at this index.
    fn set(&mut self, at: usize, new: LockRecord)
        requires { at < length self.old }
        ensures { self.new ≡ set self.old at new }
    {
        let lock = new.lock;
        let host = new.host;
        let place = usize::from(self.order[at]);
        self.records[place] = new;
        self.hosts.set(place, host);
        self.lock_numbers[place] = lock.get();
        self.hints[low_byte(lock)] = self.order[at];
    }

    /// The record of a lock, if the hint for its number is right.
    fn hinted(&self, lock: LockNumber) -> Option<LockRecord>
        ensures { IfSome result (λ r. (at : ℕ) × (at < length self.now) × (slice_index_or self.now at r ≡ r) × (r.lock ≡ lock)) }
    {
        let place = hinted_place(&self.hints, &self.lock_numbers, lock)?;
        Some(self.records[place])
    }

    /// Replaces the record of a lock, if the hint for its number is right, and tells whether it is.
    fn set_hinted(&mut self, new: &LockRecord) -> bool
        ensures done { IsTrue result → (at : ℕ) × (at < length self.old) × ((slice_index_or self.old at new.now).lock ≡ new.now.lock) × (self.new ≡ set self.old at new.now) }
        ensures left { result ≡ false → self.new ≡ self.old }
    {
        let Some(place) = hinted_place(&self.hints, &self.lock_numbers, new.lock) else {
            return false;
        };
        self.records[place] = *new;
        self.hosts.set(place, new.host);
        true
    }

    /// Keeps the place of the record at this index as the hint for its number.
    fn hint(&mut self, at: usize)
        requires { at < length self.old }
        ensures { self.new ≡ self.old }
    {
        let byte = low_byte(self.get(at).lock);
        self.hints[byte] = self.order[at];
    }

    /// Where the last record ends of a lock that was enqueued through a host, of those in front of a place. It is 0 if there is none.
    fn through_end(&self, to: usize, host: HostNumber) -> usize
        requires { to ≤ length self.now }
        ensures bound { result ≤ to }
        ensures others { AllWithin (λ r. is_through host r ≡ false) self.now result to }
        ensures last { 0 < result → (d : LockRecord) → is_through host (slice_index_or self.now (result - 1) d) ≡ true }
    {
        self.hosts.through_end(&self.order, to, host)
    }

    /// Takes a record out.
    fn remove(&mut self, at: usize)
        requires { at < length self.old }
        ensures { self.new ≡ remove self.old at }
    {
        let place = self.order.remove(at);
        self.lock_numbers[usize::from(place)] = 0;
        let _ = self.free.push(place);
    }
}

/// The low byte of a lock number.
fn low_byte(lock: LockNumber) -> usize
    ensures { result < 256 }
{
    usize::from(lock.get() % 256)
}

/// The place that is hinted for a lock number, if the number stands there. No lock number is 0, so it stands at no place without a
/// lock.
fn hinted_place(hints: &[u8; 256], lock_numbers: &[u16], lock: LockNumber) -> Option<usize>
    requires { length lock_numbers.now ≡ LOCKS }
    ensures there { IfSome result (λ place. (place < LOCKS) × (slice_index lock_numbers.now place ≡ lock)) }
    ensures some { 1 ≤ lock }
{
    let place = usize::from(hints[low_byte(lock)]);
    (lock_numbers[place] == lock.get()).then_some(place)
}

/// Returns 1 if a record has a lower lock number, else 0.
fn number_below(numbers: &ByLockNumber, at: usize, lock: LockNumber) -> usize
    requires { at < length numbers.now }
    ensures below { (d : LockRecord) → result ≡ cond (nat_lt (slice_index_or numbers.now at d).lock lock) 1 0 }
    ensures few { result ≤ 1 }
{
    lower(numbers.number(at), lock.get())
}

/// How many records have a lower lock number.
fn lower_numbers(numbers: &ByLockNumber, lock: LockNumber) -> usize
    requires { IsSorted number_cmp numbers.now }
    ensures bound { result ≤ length numbers.now }
    ensures point { IsPartitionPoint (λ r. nat_lt r.lock lock ≡ true) (λ r. nat_lt r.lock lock ≡ false) numbers.now result }
{
    let mut from = 0;
    let mut size = numbers.len();
    while size > 8 {
        let quarter = (size + 1) / 4;
        let first = number_below(numbers, from + quarter - 1, lock);
        let second = number_below(numbers, from + 2 * quarter - 1, lock);
        let third = number_below(numbers, from + 3 * quarter - 1, lock);
        from += passed_of_three(quarter, first + second + third);
        size -= 3 * quarter;
    }
    let mut place = from;
    for at in from..from + size {
        place += number_below(numbers, at, lock);
    }
    place
}

/// Whether a place is where the records of lower lock numbers end.
fn ends_lower(numbers: &ByLockNumber, place: usize, lock: LockNumber) -> bool
    requires { IsSorted number_cmp numbers.now }
    ensures bound { IsTrue result → place ≤ length numbers.now }
    ensures point { IsTrue result → IsPartitionPoint (λ r. nat_lt r.lock lock ≡ true) (λ r. nat_lt r.lock lock ≡ false) numbers.now place }
{
    let all = numbers.len();
    if place > all {
        return false;
    }
    if place > 0 && number_below(numbers, place - 1, lock) == 0 {
        return false;
    }
    if place < all && number_below(numbers, place, lock) == 1 {
        return false;
    }
    true
}

/// How many records have a lower lock number: as many as stand in front of `near` where it is the right place, else a search finds it.
fn lower_numbers_near(numbers: &ByLockNumber, lock: LockNumber, near: usize) -> usize
    requires { IsSorted number_cmp numbers.now }
    ensures bound { result ≤ length numbers.now }
    ensures point { IsPartitionPoint (λ r. nat_lt r.lock lock ≡ true) (λ r. nat_lt r.lock lock ≡ false) numbers.now result }
{
    if ends_lower(numbers, near, lock) {
        near
    } else {
        lower_numbers(numbers, lock)
    }
}

/// The record of a lock number. Where it stands, or would stand, is kept in `near`, if that had to be searched for.
#[inline(always)]
pub fn numbered(numbers: &ByLockNumber, lock: LockNumber, near: &Cell<usize>) -> Option<LockRecord>
    requires rising { IsSorted number_cmp numbers.now }
    requires distinct { IsDistinct numbers.now }
    ensures { result ≡ lock_in numbers.now lock }
{
    if let Some(found) = numbers.hinted(lock) {
        return Some(found);
    }
    let place = lower_numbers(numbers, lock);
    near.set(place);
    let found = numbers.record_at(place)?;
    (found.lock == lock).then_some(found)
}

/// Hints at the record at a place that a search found, so that the next one for its number finds it at once.
pub fn keep_found(numbers: &mut ByLockNumber, near: usize)
    ensures { numbers.new ≡ numbers.old }
{
    if near < numbers.len() {
        numbers.hint(near);
    }
}

/// Puts in the record of a lock that has none.
pub fn put_new(numbers: &mut ByLockNumber, new: LockRecord, near: usize)
    requires rising { IsSorted number_cmp numbers.old }
    requires absent { lock_in numbers.old new.lock ≡ None }
    requires room { length numbers.old < LOCKS }
    ensures rising { IsSorted number_cmp numbers.new }
    ensures alike { (lock : ℕ) → filter (is_lock lock) numbers.new ≡ filter (is_lock lock) (put numbers.old new) }
{
    let place = lower_numbers_near(numbers, new.lock, near);
    numbers.insert(place, new);
}

/// Replaces the record of the lock that has this number.
pub fn replace(numbers: &mut ByLockNumber, new: LockRecord, near: usize)
    requires rising { IsSorted number_cmp numbers.old }
    requires distinct { IsDistinct numbers.old }
    requires there { IsSome (lock_in numbers.old new.lock) }
    ensures rising { IsSorted number_cmp numbers.new }
    ensures alike { (lock : ℕ) → filter (is_lock lock) numbers.new ≡ filter (is_lock lock) (put numbers.old new) }
{
    if numbers.set_hinted(&new) {
        return;
    }
    let place = lower_numbers_near(numbers, new.lock, near);
    numbers.set(place, new);
}

/// Takes away the record of a lock.
pub fn take_away(numbers: &mut ByLockNumber, lock: LockNumber, near: usize)
    requires rising { IsSorted number_cmp numbers.old }
    requires distinct { IsDistinct numbers.old }
    requires there { IsSome (lock_in numbers.old lock) }
    ensures items { numbers.new ≡ without numbers.old lock }
{
    let place = lower_numbers_near(numbers, lock, near);
    numbers.remove(place);
}

/// Takes away the records of locks that were enqueued through a host.
pub fn keep_others(numbers: &mut ByLockNumber, host: HostNumber)
    ensures items { numbers.new ≡ filter (λ r. not (is_through host r)) numbers.old }
{
    let mut end = numbers.through_end(numbers.len(), host);
    while end > 0 {
        numbers.remove(end - 1);
        end = numbers.through_end(end - 1, host);
    }
}
