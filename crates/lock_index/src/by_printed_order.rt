ghost use Rattle.std.specs.Prelude.{◌≡◌, ◌+◌, ◌-◌, ◌<◌, ◌≤◌, ◌==◌, ◌^◌, ℕ, [], IfOk, IsTrue, cond, true, false, nat_lt, length, insert, remove, set, slice_index_or, vec_len, vec_capacity};
ghost use Rattle.std.specs.List.{list_any, slice_get, AllWithin};
ghost use Rattle.lock_command.specs.declared.record.LockRecord.{LockRecord};
ghost use Rattle.lock_command.specs.Locks.{is_through};
ghost use Rattle.lock_command.specs.State.{holds_against};
ghost use Rattle.lock_command.specs.State.{is_writer};
ghost use Rattle.lock_index.specs.Keys.{lock_key, HasKey};
ghost use Rattle.lock_index.specs.Shelved.{at_place, idle, times};

use crate::bits::{WRITERS, bits_against};
use crate::hosts::Hosts;
use crate::keys::{SpelledName, lock_key};
use crate::state::held_bit;
use lock_command::{ClientNumber, HostNumber, LOCKS, LockRecord, Mode};
use std::alloc::{AllocError, Global};
use std::marker::Model;

/// A number that no sort key reaches.
const BEHIND: u128 = 0x4000_0000_0000_0000_0000_0000_0000_0000;

/// Locks in printed order. Each record keeps its place in memory while others come and go; only the order is shifted.
#[derive(Drop)]
pub struct ByPrintedOrder {
    /// The records, by place. A record at a free place means nothing.
    records: Vec<LockRecord>,
    /// The places in the order of their locks.
    order: Vec<u8>,
    /// The places that were given up.
    free: Vec<u8>,
    /// A bit for each lock's held mode, in the order of the locks.
    held: Vec<u8>,
    /// The sort keys of the locks, by place.
    keys: Vec<u128>,
    /// The hosts that the locks were enqueued through, by place.
    hosts: Hosts,
}

impl Model for ByPrintedOrder {
    ghost use Rattle.std.specs.Prelude.{List, ◌≡◌, ◌≤◌, vec_len, vec_capacity};
    ghost use Rattle.lock_index.specs.Bits.{held_bits};
    ghost use Rattle.lock_index.specs.Keys.{IsKeyed};
    ghost use Rattle.lock_command.specs.declared.record.TheConstants.{LOCKS};
    ghost use Rattle.lock_command.specs.declared.record.LockRecord.{LockRecord};
    ghost use Rattle.lock_index.specs.Shelved.{IsShelved, IsHosted, at_places};

    ghost Value = { List LockRecord };

    ghost view = { λ places. at_places places.records.items places.order.items };

    ghost invariant = { λ places. IsShelved places.records.items places.order.items places.free.items × (vec_len places.records ≤ LOCKS) × (LOCKS ≤ vec_capacity places.records) × (LOCKS ≤ vec_capacity places.order) × (LOCKS ≤ vec_capacity places.free) × (LOCKS ≤ vec_capacity places.held) × (places.held.items ≡ held_bits (at_places places.records.items places.order.items)) × (vec_len places.keys ≡ LOCKS) × IsKeyed places.records.items places.order.items places.keys.items × IsHosted places.records.items places.order.items places.hosts };
}

impl ByPrintedOrder {
    /// No locks, and room for the most that there may be.
    pub fn new(alloc: Global) -> Result<Self, AllocError>
        ensures { IfOk result (λ places. places ≡ []) }
    {
        Ok(ByPrintedOrder {
            records: Vec::with_capacity(alloc, LOCKS)?,
            order: Vec::with_capacity(alloc, LOCKS)?,
            free: Vec::with_capacity(alloc, LOCKS)?,
            held: Vec::with_capacity(alloc, LOCKS)?,
            keys: Vec::from_elem(alloc, 0, LOCKS)?,
            hosts: Hosts::new(),
        })
    }

    pub fn len(&self) -> usize
        ensures len { result ≡ length self.now }
        ensures few { result ≤ LOCKS }
        ensures fit { AllWithin HasKey self.now 0 (length self.now) }
    {
        self.order.len()
    }

    /// The lock at this index, in printed order.
    pub fn get(&self, at: usize) -> &LockRecord
        requires { at < length self.now }
        ensures lock { result.now ≡ slice_index_or self.now at result.now }
        ensures few { at < LOCKS }
    {
        &self.records[usize::from(self.order[at])]
    }

    /// The lock at this index, or `None` past the last.
    pub fn lock_at(&self, at: usize) -> Option<LockRecord>
        ensures { result ≡ slice_get self.now at }
    {
        if at < self.len() {
            Some(*self.get(at))
        } else {
            None
        }
    }

    /// The name of the lock at this index. Its number is read from the sort key.
    pub fn name(&self, at: usize) -> SpelledName
        requires { at < length self.now }
        ensures { (d : LockRecord) → result ≡ (slice_index_or self.now at d).name }
    {
        let place = usize::from(self.order[at]);
        SpelledName::of_key(self.records[place].name, self.keys[place])
    }

    /// Returns 1 if a lock has a lower key, else 0. The difference of the keys tells it, without a branch.
    pub fn below(&self, at: usize, key: u128) -> usize
        requires inside { at < length self.now }
        requires small { key ≤ 2 ^ 126 }
        ensures below { (d : LockRecord) → result ≡ cond (nat_lt (lock_key (slice_index_or self.now at d)) key) 1 0 }
        ensures few { result ≤ 1 }
    {
        let other = self.keys[usize::from(self.order[at])];
        ((key + (BEHIND - 1) - other) / BEHIND) as usize
    }

    /// Whether a lock holds a mode that conflicts with the wanted one.
    pub fn holds_against(&self, at: usize, wanted: Mode) -> bool
        requires { at < length self.now }
        ensures { (d : LockRecord) → result ≡ holds_against wanted (slice_index_or self.now at d).state }
    {
        self.held[at] & bits_against(wanted) != 0
    }

    /// Whether none of the locks from index `from` to before `to` holds a mode that conflicts with the wanted one. It tests all
    /// of them, without a branch.
    pub fn none_against(&self, from: usize, to: usize, wanted: Mode) -> bool
        requires { to ≤ length self.now }
        ensures clear { IsTrue result → AllWithin (λ r. holds_against wanted r.state ≡ false) self.now from to }
        ensures met { AllWithin (λ r. holds_against wanted r.state ≡ false) self.now from to → IsTrue result }
    {
        let mut none = true;
        for at in from..to {
            none &= !self.holds_against(at, wanted);
        }
        none
    }

    /// Whether a lock holds a mode under which nobody else writes.
    pub fn is_writer(&self, at: usize) -> bool
        requires { at < length self.now }
        ensures { (d : LockRecord) → result ≡ is_writer (slice_index_or self.now at d).state }
    {
        self.held[at] & WRITERS != 0
    }

    /// Whether some lock holds a mode under which nobody else writes. It tests all locks, without a branch.
    pub fn has_writer(&self) -> bool
        ensures { result ≡ list_any (λ r. is_writer r.state) self.now }
    {
        let mut any = false;
        for at in 0..self.len() {
            any |= self.is_writer(at);
        }
        any
    }

    /// Whether some lock is the client's.
    pub fn has_locks(&self, client: ClientNumber) -> bool
        ensures { result ≡ list_any (λ (r : LockRecord). r.client == client) self.now }
    {
        let mut any = false;
        for at in 0..self.len() {
            any |= self.get(at).client == client;
        }
        any
    }

    /// Where the last lock ends that was enqueued through a host, of those in front of a place. It is 0 if there is none.
    pub fn through_end(&self, to: usize, host: HostNumber) -> usize
        requires { to ≤ length self.now }
        ensures bound { result ≤ to }
        ensures others { AllWithin (λ r. is_through host r ≡ false) self.now result to }
        ensures last { 0 < result → (d : LockRecord) → is_through host (slice_index_or self.now (result - 1) d) ≡ true }
    {
        self.hosts.through_end(&self.order, to, host)
    }

    /// Lists the locks.
    pub fn list(&self, into: &mut Vec<LockRecord>)
        requires empty { into.old.items ≡ [] }
        requires room { LOCKS ≤ vec_capacity into.old }
        ensures locks { into.new.items ≡ self.now }
        ensures room { vec_capacity into.old ≤ vec_capacity into.new }
    {
        for at in 0..self.len() {
            let _ = into.push(*self.get(at));
        }
    }

    /// Puts a lock of a name in.
    pub fn insert(&mut self, at: usize, new: LockRecord, name: &SpelledName)
        requires named { name.now ≡ new.name }
        requires inside { at ≤ length self.old }
        requires room { length self.old < LOCKS }
        ensures { self.new ≡ insert self.old at new }
    {
        let key = lock_key(&new, name);
        let place = take_place(&mut self.records, &mut self.free, new);
        self.keys[usize::from(place)] = key;
        self.hosts.set(usize::from(place), new.host);
        let _ = self.order.insert(at, place);
        let _ = self.held.insert(at, held_bit(&new.state));
    }

    /// Replaces the lock at this index. The sort key that is kept for it stays.
    pub fn set(&mut self, at: usize, new: LockRecord)
        requires inside { at < length self.old }
        requires fits { HasKey new }
        requires key { (d : LockRecord) → lock_key new ≡ lock_key (slice_index_or self.old at d) }
        ensures { self.new ≡ set self.old at new }
    {
        let place = usize::from(self.order[at]);
        self.records[place] = new;
        self.hosts.set(place, new.host);
        self.held[at] = held_bit(&new.state);
    }

    /// Takes a lock out.
    pub fn remove(&mut self, at: usize)
        requires { at < length self.old }
        ensures locks { self.new ≡ remove self.old at }
        ensures room { length self.new < LOCKS }
    {
        let place = self.order.remove(at);
        let _ = self.free.push(place);
        let _ = self.held.remove(at);
    }
}

/// Puts a record at a free place, and returns the place.
pub fn take_place(records: &mut Vec<LockRecord>, free: &mut Vec<u8>, new: LockRecord) -> u8
    requires few { vec_len records.old ≤ LOCKS }
    requires room { vec_len records.old < LOCKS + vec_len free.old }
    requires reserved { LOCKS ≤ vec_capacity records.old }
    requires below { (place : ℕ) → 1 ≤ times place free.old.items → place < vec_len records.old }
    ensures own { at_place records.new.items result ≡ new }
    ensures others { (place : ℕ) → idle records.old.items free.old.items place ≡ 0 → at_place records.new.items place ≡ at_place records.old.items place }
    ensures idle { (place : ℕ) → idle records.old.items free.old.items place ≡ idle records.new.items free.new.items place + cond (result == place) 1 0 }
    ensures len { vec_len records.new + vec_len free.old ≡ vec_len records.old + vec_len free.new + 1 }
    ensures few { vec_len records.new ≤ LOCKS }
    ensures reserved { LOCKS ≤ vec_capacity records.new }
    ensures free_reserved { vec_capacity free.new ≡ vec_capacity free.old }
{
    if let Some(place) = free.pop() {
        records[usize::from(place)] = new;
        return place;
    }
    let place = records.len() as u8;
    let _ = records.push(new);
    place
}
