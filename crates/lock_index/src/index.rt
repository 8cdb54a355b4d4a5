ghost use Rattle.std.specs.Prelude.{◌≡◌, ◌+◌, ◌<◌, ◌≤◌, ◌↔◌, [], ℕ, List, IfOk, IfSome, IsTrue, Some, None, filter, length, not, vec_capacity};
ghost use Rattle.std.specs.List.Sorted.{IsSorted};
ghost use Rattle.std.specs.List.{list_any};
ghost use Rattle.lock_command.specs.Name.{same_name};
ghost use Rattle.lock_command.specs.Locks.{is_on, is_through};
ghost use Rattle.lock_command.specs.Locks.{lock_in, without, put, has_queue, head_of, admits, in_state, settled, settled_all, IsDistinct};
ghost use Rattle.lock_index.specs.Indexed.{IsGrantedEnd, IsGrantedGroup};
ghost use Rattle.lock_index.specs.Printed.{printed_cmp};
ghost use Rattle.lock_index.specs.Placed.{in_order};

use crate::by_lock_number::ByLockNumber;
use crate::by_printed_order::ByPrintedOrder;
use crate::keys::SpelledName;
use crate::printed::GrantedGroup;
use crate::state::goal;
use crate::{by_lock_number, printed, purge};
use lock_command::{HostNumber, LOCKS, LockNumber, LockRecord, LockState, Mode};
use std::alloc::{AllocError, Global};
use std::cell::Cell;
use std::marker::Model;

/// The locks twice: in printed order, where the locks of a name are side by side and its queues are in their order, and by
/// lock number. So a search finds a lock, a name, and the head of a name's queues in a few steps.
#[derive(Drop)]
pub struct Index {
    printed: ByPrintedOrder,
    numbers: ByLockNumber,
}

impl Model for Index {
    ghost use Rattle.std.specs.Prelude.{List};
    ghost use Rattle.lock_command.specs.declared.record.LockRecord.{LockRecord};
    ghost use Rattle.lock_index.specs.Indexed.{IsIndexed};

    ghost Value = { List LockRecord };

    ghost view = { λ index. index.printed };

    ghost invariant = { λ index. IsIndexed index.printed index.numbers };
}

impl Index {
    /// No locks, and room for the most that there may be.
    pub fn new(alloc: Global) -> Result<Self, AllocError>
        ensures { IfOk result (λ index. index ≡ []) }
    {
        Ok(Index {
            printed: ByPrintedOrder::new(alloc)?,
            numbers: ByLockNumber::new(alloc)?,
        })
    }

    /// The locks in printed order.
    pub fn printed(&self) -> &ByPrintedOrder
        ensures locks { result.now ≡ self.now }
        ensures distinct { IsDistinct self.now }
        ensures sorted { IsSorted printed_cmp self.now }
    {
        &self.printed
    }

    pub fn is_full(&self) -> bool
        ensures { IsTrue result ↔ (LOCKS ≤ length self.now) }
    {
        self.printed.len() >= LOCKS
    }

    /// The record of a lock number. Where it stands by number, or would stand, is kept in `near`, if that was searched for.
    #[inline(always)]
    pub fn lock_in(&self, lock: LockNumber, near: &Cell<usize>) -> Option<LockRecord>
        ensures found { result ≡ lock_in self.now lock }
        ensures there { IfSome result (λ r. lock_in self.now r.lock ≡ Some r) }
        ensures printed { in_order printed_cmp self.now ≡ self.now }
        ensures distinct { IsDistinct self.now }
    {
        by_lock_number::numbered(&self.numbers, lock, near)
    }

    /// Keeps the place of a lock that a search by number found, so that the next one finds it at once.
    pub fn keep_found(&mut self, near: usize)
        ensures { self.new ≡ self.old }
    {
        by_lock_number::keep_found(&mut self.numbers, near);
    }

    /// Where the granted locks of a name stand.
    pub fn granted_group(&self, name: &SpelledName) -> GrantedGroup
        ensures { IsGrantedGroup name.now self.now result.begin result.end }
    {
        printed::granted_group(&self.printed, name)
    }

    /// The lock whose turn it is on a name, whose granted locks end at a place.
    fn head(&self, name: &SpelledName, end: usize) -> Option<LockRecord>
        requires end { IsGrantedEnd name.now self.now end }
        ensures head { result ≡ head_of self.now name.now }
        ensures named { IfSome result (λ r. r.name ≡ name.now) }
        ensures there { IfSome result (λ r. lock_in self.now r.lock ≡ Some r) }
        ensures printed { in_order printed_cmp self.now ≡ self.now }
        ensures distinct { IsDistinct self.now }
    {
        printed::head(&self.printed, name, end)
    }

    /// Whether a lock of the name, whose granted locks end at a place, stands in a queue.
    pub fn has_queue(&self, name: &SpelledName, end: usize) -> bool
        requires end { IsGrantedEnd name.now self.now end }
        ensures { result ≡ has_queue self.now name.now }
    {
        self.head(name, end).is_some()
    }

    /// Whether no other lock of the name holds a mode that conflicts with this one.
    pub fn admits(
        &self,
        lock: LockNumber,
        name: &SpelledName,
        mode: Mode,
        group: GrantedGroup,
    ) -> bool
        requires group { IsGrantedGroup name.now self.now group.begin group.end }
        ensures { result ≡ admits self.now lock name.now mode }
    {
        printed::admits(&self.printed, lock, name, mode, group)
    }

    /// Puts in a lock that is new.
    pub fn put_new(&mut self, new: LockRecord, name: &SpelledName, group: GrantedGroup)
        requires named { name.now ≡ new.name }
        requires absent { lock_in self.old new.lock ≡ None }
        requires room { length self.old < LOCKS }
        requires group { IsGrantedGroup name.now self.old group.begin group.end }
        ensures { self.new ≡ in_order printed_cmp (put self.old new) }
    {
        by_lock_number::put_new(&mut self.numbers, new, name.near_by_number());
        let _ = printed::put_in(&mut self.printed, &new, name, group);
    }

    /// Changes the state of a lock, and tells where the granted locks of its name stand then. If it queues then, it comes last in its queue.
    pub fn restate(
        &mut self,
        own: LockRecord,
        state: LockState,
        name: &SpelledName,
        group: GrantedGroup,
    ) -> GrantedGroup
        requires named { name.now ≡ own.name }
        requires there { lock_in self.old own.lock ≡ Some own }
        requires group { IsGrantedGroup name.now self.old group.begin group.end }
        ensures put { self.new ≡ in_order printed_cmp (put self.old (in_state own state)) }
        ensures group { IsGrantedGroup name.now self.new result.begin result.end }
    {
        let new = own.with_state(state);
        by_lock_number::replace(&mut self.numbers, new, name.near_by_number());
        printed::restate(&mut self.printed, &own, &new, name, group)
    }

    /// Takes a lock away, and tells where the granted locks of its name stand then.
    pub fn take_away(&mut self, own: LockRecord, name: &SpelledName) -> GrantedGroup
        requires named { name.now ≡ own.name }
        requires there { lock_in self.old own.lock ≡ Some own }
        ensures left { self.new ≡ without self.old own.lock }
        ensures group { IsGrantedGroup name.now self.new result.begin result.end }
    {
        by_lock_number::take_away(&mut self.numbers, own.lock, name.near_by_number());
        let group = printed::granted_group(&self.printed, name);
        printed::take_out(&mut self.printed, &own, name, group)
    }

    /// Takes away the locks that were enqueued through a host, lists their names, and counts them.
    pub fn take_through(&mut self, host: HostNumber, names: &mut Vec<SpelledName>) -> u16
        requires room { LOCKS ≤ vec_capacity names.old }
        requires empty { names.old.items ≡ [] }
        ensures left { self.new ≡ filter (λ r. not (is_through host r)) self.old }
        ensures count { result ≡ length (filter (is_through host) self.old) }
        ensures names { (name : List ℕ) → list_any (λ n. same_name n name) names.new.items ≡ list_any (is_on name) (filter (is_through host) self.old) }
        ensures room { vec_capacity names.old ≤ vec_capacity names.new }
        ensures printed { in_order printed_cmp self.new ≡ self.new }
        ensures distinct { IsDistinct self.old }
    {
        let count = purge::take_through(&mut self.printed, host, names);
        if count > 0 {
            by_lock_number::keep_others(&mut self.numbers, host);
        }
        count
    }

    /// Grants locks of the name in their turn, until one cannot be granted.
    pub fn settle(&mut self, name: &SpelledName)
        ensures { self.new ≡ in_order printed_cmp (settled self.old name.now) }
    {
        let group = self.granted_group(name);
        self.settle_behind(name, group);
    }

    /// Grants locks of the name, whose granted locks stand at these places, in their turn, until one cannot be granted.
    pub fn settle_behind(&mut self, name: &SpelledName, mut group: GrantedGroup)
        requires group { IsGrantedGroup name.now self.old group.begin group.end }
        ensures { self.new ≡ in_order printed_cmp (settled self.old name.now) }
    {
        while let Some(first) = self.head(name, group.end) {
            let wanted = goal(&first.state);
            if !self.admits(first.lock, name, wanted, group) {
                return;
            }
            group = self.restate(first, LockState::Granted(wanted), name, group);
        }
    }

    /// Settles each of the names in turn.
    pub fn settle_all(&mut self, names: &[SpelledName])
        requires printed { in_order printed_cmp self.old ≡ self.old }
        requires distinct { IsDistinct self.old }
        ensures { self.new ≡ in_order printed_cmp (settled_all self.old names.now) }
    {
        for name in names {
            self.settle(name);
        }
    }
}
