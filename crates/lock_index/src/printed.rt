ghost use Rattle.std.specs.Prelude.{◌≡◌, ◌+◌, ◌-◌, ◌*◌, ◌/◌, ◌<◌, ◌≤◌, ◌^◌, Some, None, length, find, drop, insert, remove, slice_index_or, nat_lt, true, false};
ghost use Rattle.std.specs.List.{AllWithin, list_any};
ghost use Rattle.std.specs.List.Sorted.{IsSorted, IsPartitionPoint};
ghost use Rattle.lock_index.specs.Indexed.{stands_before_rank, IsGrantedEnd, IsGrantedGroup};
ghost use Rattle.lock_command.specs.State.{is_queued};
ghost use Rattle.lock_index.specs.Narrowed.{IsNarrowed};
ghost use Rattle.lock_index.specs.Keys.{lock_key, HasKey};
ghost use Rattle.lock_command.specs.Locks.{is_lock, is_on, lock_in, without, head_of, admits, in_state, IsDistinct};
ghost use Rattle.lock_index.specs.Printed.{printed_cmp};
ghost use Rattle.lock_index.specs.Placed.{placed};
ghost use Rattle.lock_command.specs.declared.record.LockRecord.{LockRecord};

use crate::by_printed_order::ByPrintedOrder;
use crate::keys::{SpelledName, lock_key};
use crate::narrowing::passed_of_three;
use crate::state::is_granted;
use lock_command::{LOCKS, LockName, LockNumber, LockRecord, Mode};

/// Where the granted locks of a name stand: from one place to before another.
#[derive(Clone, Copy)]
pub struct GrantedGroup {
    pub begin: usize,
    pub end: usize,
}

/// Where a stretch of more than four begins after three tests, which leave a quarter of it, or up to two more. No test waits for another.
#[inline(always)]
fn narrowed(printed: &ByPrintedOrder, from: usize, size: usize, key: u128) -> usize
    requires sorted { IsSorted printed_cmp printed.now }
    requires small { key ≤ 2 ^ 126 }
    requires few { length printed.now ≤ LOCKS }
    requires fit { AllWithin HasKey printed.now 0 (length printed.now) }
    requires narrowed { IsNarrowed (λ r. nat_lt (lock_key r) key) printed.now from size }
    requires more { 4 < size }
    ensures { IsNarrowed (λ r. nat_lt (lock_key r) key) printed.now result (size - 3 * ((size + 1) / 4)) }
{
    let quarter = (size + 1) / 4;
    let first = printed.below(from + quarter - 1, key);
    let second = printed.below(from + 2 * quarter - 1, key);
    let third = printed.below(from + 3 * quarter - 1, key);
    from + passed_of_three(quarter, first + second + third)
}

/// Where the locks of lower keys end within a stretch. The tests branch: in what comes again and again a processor knows how they end, and
/// most stretches are the locks of one name.
fn end_within(printed: &ByPrintedOrder, mut from: usize, mut size: usize, key: u128) -> usize
    requires sorted { IsSorted printed_cmp printed.now }
    requires small { key ≤ 2 ^ 126 }
    requires few { length printed.now ≤ LOCKS }
    requires fit { AllWithin HasKey printed.now 0 (length printed.now) }
    requires narrowed { IsNarrowed (λ r. nat_lt (lock_key r) key) printed.now from size }
    ensures bound { result ≤ length printed.now }
    ensures point { IsPartitionPoint (λ r. nat_lt (lock_key r) key ≡ true) (λ r. nat_lt (lock_key r) key ≡ false) printed.now result }
{
    while size > 0 {
        let half = size - size / 2;
        if printed.below(from + half - 1, key) == 1 {
            from += half;
        }
        size /= 2;
    }
    from
}

/// How many locks have a key below one, and how many have a key below another. No test for one key waits for a test for the other.
fn both_below(printed: &ByPrintedOrder, one: u128, other: u128) -> (usize, usize)
    requires sorted { IsSorted printed_cmp printed.now }
    requires small { one ≤ 2 ^ 126 }
    requires small_too { other ≤ 2 ^ 126 }
    ensures bound { result.0 ≤ length printed.now }
    ensures bound_too { result.1 ≤ length printed.now }
    ensures point { IsPartitionPoint (λ r. nat_lt (lock_key r) one ≡ true) (λ r. nat_lt (lock_key r) one ≡ false) printed.now result.0 }
    ensures point_too { IsPartitionPoint (λ r. nat_lt (lock_key r) other ≡ true) (λ r. nat_lt (lock_key r) other ≡ false) printed.now result.1 }
    ensures fit { AllWithin HasKey printed.now 0 (length printed.now) }
{
    let mut first = 0;
    let mut second = 0;
    let mut left = printed.len();
    while left > 4 {
        first = narrowed(printed, first, left, one);
        second = narrowed(printed, second, left, other);
        left -= 3 * ((left + 1) / 4);
    }
    let (mut place, mut place_too) = (first, second);
    for at in 0..left {
        place += printed.below(first + at, one);
        place_too += printed.below(second + at, other);
    }
    (place, place_too)
}

/// How many locks have a lower key, where all in front of a place have. Often none behind it has, which one test tells.
fn end_behind(printed: &ByPrintedOrder, from: usize, key: u128) -> usize
    requires sorted { IsSorted printed_cmp printed.now }
    requires small { key ≤ 2 ^ 126 }
    requires bound { from ≤ length printed.now }
    requires front { AllWithin (λ r. nat_lt (lock_key r) key ≡ true) printed.now 0 from }
    ensures bound { result ≤ length printed.now }
    ensures point { IsPartitionPoint (λ r. nat_lt (lock_key r) key ≡ true) (λ r. nat_lt (lock_key r) key ≡ false) printed.now result }
    ensures fit { AllWithin HasKey printed.now 0 (length printed.now) }
{
    let all = printed.len();
    if from >= all || printed.below(from, key) == 0 {
        return from;
    }
    end_within(printed, from + 1, all - from - 1, key)
}

/// How many locks have a lower key, where it is the key of a lock of the name, or the next one. A granted lock has its place among the
/// granted locks, and one that queues has it behind them.
fn locks_below(
    printed: &ByPrintedOrder,
    of: &LockRecord,
    name: &SpelledName,
    group: GrantedGroup,
    key: u128,
) -> usize
    requires sorted { IsSorted printed_cmp printed.now }
    requires named { name.now ≡ of.now.name }
    requires fits { HasKey of.now }
    requires small { key ≤ 2 ^ 126 }
    requires own { lock_key of.now ≤ key }
    requires next { key ≤ lock_key of.now + 1 }
    requires group { IsGrantedGroup name.now printed.now group.begin group.end }
    ensures bound { result ≤ length printed.now }
    ensures point { IsPartitionPoint (λ r. nat_lt (lock_key r) key ≡ true) (λ r. nat_lt (lock_key r) key ≡ false) printed.now result }
    ensures fit { AllWithin HasKey printed.now 0 (length printed.now) }
    ensures after { group.begin ≤ result }
    ensures granted { is_queued of.now.state ≡ false → result ≤ group.end }
    ensures queued { is_queued of.now.state ≡ true → group.end ≤ result }
{
    // Called for its contract only: all locks have keys.
    let _ = printed.len();
    if is_granted(&of.state) {
        end_within(printed, group.begin, group.end - group.begin, key)
    } else {
        end_behind(printed, group.end, key)
    }
}

/// The index at which a new record is inserted: after all records whose key is not above its own.
fn joining_place(
    printed: &ByPrintedOrder,
    new: &LockRecord,
    name: &SpelledName,
    group: GrantedGroup,
) -> usize
    requires sorted { IsSorted printed_cmp printed.now }
    requires named { name.now ≡ new.now.name }
    requires group { IsGrantedGroup name.now printed.now group.begin group.end }
    ensures bound { result ≤ length printed.now }
    ensures place { insert printed.now result new.now ≡ placed printed_cmp new.now printed.now }
    ensures after { group.begin ≤ result }
    ensures granted { is_queued new.now.state ≡ false → result ≤ group.end }
    ensures queued { is_queued new.now.state ≡ true → group.end ≤ result }
{
    locks_below(printed, new, name, group, lock_key(new, name) + 1)
}

/// The index of a lock's record, which stands at a place or behind it. Records in one queue have one key, so the queue is searched from its
/// head.
fn own_from(printed: &ByPrintedOrder, own: &LockRecord, mut at: usize) -> usize
    requires distinct { IsDistinct printed.now }
    requires there { find (is_lock own.now.lock) (drop at printed.now) ≡ Some own.now }
    ensures bound { result < length printed.now }
    ensures lock { (d : LockRecord) → slice_index_or printed.now result d ≡ own.now }
    ensures place { remove printed.now result ≡ without printed.now own.now.lock }
{
    while printed.get(at).lock != own.lock {
        at += 1;
    }
    at
}

/// The index of a lock's record.
fn place_of(
    printed: &ByPrintedOrder,
    own: &LockRecord,
    name: &SpelledName,
    group: GrantedGroup,
) -> usize
    requires sorted { IsSorted printed_cmp printed.now }
    requires named { name.now ≡ own.now.name }
    requires distinct { IsDistinct printed.now }
    requires there { lock_in printed.now own.now.lock ≡ Some own.now }
    requires group { IsGrantedGroup name.now printed.now group.begin group.end }
    ensures bound { result < length printed.now }
    ensures lock { (d : LockRecord) → slice_index_or printed.now result d ≡ own.now }
    ensures fits { HasKey own.now }
    ensures place { remove printed.now result ≡ without printed.now own.now.lock }
{
    let head = locks_below(printed, own, name, group, lock_key(own, name));
    own_from(printed, own, head)
}

/// Where the granted locks of a name stand.
pub fn granted_group(printed: &ByPrintedOrder, name: &SpelledName) -> GrantedGroup
    requires { IsSorted printed_cmp printed.now }
    ensures { IsGrantedGroup name.now printed.now result.begin result.end }
{
    let (begin, end) = both_below(printed, name.key(0, 0), name.key(1, 0));
    GrantedGroup { begin, end }
}

/// Where the conversions of a name end.
fn conversions_end(printed: &ByPrintedOrder, name: &SpelledName, group: GrantedGroup) -> usize
    requires sorted { IsSorted printed_cmp printed.now }
    requires group { IsGrantedGroup name.now printed.now group.begin group.end }
    ensures bound { result ≤ length printed.now }
    ensures point { IsPartitionPoint (λ r. stands_before_rank name.now 2 r ≡ true) (λ r. stands_before_rank name.now 2 r ≡ false) printed.now result }
{
    // Called for its contract only: all locks have keys.
    let _ = printed.len();
    end_behind(printed, group.end, name.key(2, 0))
}

/// The lock whose turn it is on a name, whose granted locks end at a place: the first that converts, else the first that waits.
pub fn head(printed: &ByPrintedOrder, name: &SpelledName, end: usize) -> Option<LockRecord>
    requires sorted { IsSorted printed_cmp printed.now }
    requires end { IsGrantedEnd name.now printed.now end }
    ensures { result ≡ head_of printed.now name.now }
{
    // All keys of the name are below this one, and no key of a later name is.
    if end < printed.len() && printed.below(end, name.key(3, 0)) == 1 {
        Some(*printed.get(end))
    } else {
        None
    }
}

/// Whether a name has locks.
pub fn has_locks(printed: &ByPrintedOrder, name: LockName) -> bool
    requires { IsSorted printed_cmp printed.now }
    ensures { result ≡ list_any (is_on name) printed.now }
{
    let name = SpelledName::new(name);
    match printed.lock_at(end_behind(printed, 0, name.key(0, 0))) {
        Some(first) => first.name == name.name(),
        None => false,
    }
}

/// Whether no other lock of the name holds a mode that conflicts with this one. The bits of the held modes are tested first,
/// without a branch. Only if one conflicts are lock numbers compared, as the conflict may be with the lock itself.
pub fn admits(
    printed: &ByPrintedOrder,
    lock: LockNumber,
    name: &SpelledName,
    mode: Mode,
    group: GrantedGroup,
) -> bool
    requires sorted { IsSorted printed_cmp printed.now }
    requires group { IsGrantedGroup name.now printed.now group.begin group.end }
    ensures { result ≡ admits printed.now lock name.now mode }
{
    let from = group.begin;
    let to = conversions_end(printed, name, group);
    if printed.none_against(from, to, mode) {
        return true;
    }
    for at in from..to {
        if printed.holds_against(at, mode) && printed.get(at).lock != lock {
            return false;
        }
    }
    true
}

/// Puts a record in its place, and tells where the granted locks of its name stand then.
pub fn put_in(
    printed: &mut ByPrintedOrder,
    new: &LockRecord,
    name: &SpelledName,
    group: GrantedGroup,
) -> GrantedGroup
    requires sorted { IsSorted printed_cmp printed.old }
    requires named { name.now ≡ new.now.name }
    requires room { length printed.old < LOCKS }
    requires group { IsGrantedGroup name.now printed.old group.begin group.end }
    ensures items { printed.new ≡ placed printed_cmp new.now printed.old }
    ensures group { IsGrantedGroup name.now printed.new result.begin result.end }
{
    printed.insert(joining_place(printed, new, name, group), *new, name);
    let begin = group.begin;
    let end = if is_granted(&new.state) {
        group.end + 1
    } else {
        group.end
    };
    GrantedGroup { begin, end }
}

/// Takes the record of a lock out, and tells where the granted locks of its name stand then.
pub fn take_out(
    printed: &mut ByPrintedOrder,
    own: &LockRecord,
    name: &SpelledName,
    group: GrantedGroup,
) -> GrantedGroup
    requires sorted { IsSorted printed_cmp printed.old }
    requires named { name.now ≡ own.now.name }
    requires distinct { IsDistinct printed.old }
    requires there { lock_in printed.old own.now.lock ≡ Some own.now }
    requires group { IsGrantedGroup name.now printed.old group.begin group.end }
    ensures items { printed.new ≡ without printed.old own.now.lock }
    ensures room { length printed.new < LOCKS }
    ensures group { IsGrantedGroup name.now printed.new result.begin result.end }
{
    let place = place_of(printed, own, name, group);
    printed.remove(place);
    let begin = group.begin;
    let end = if place < group.end {
        group.end - 1
    } else {
        group.end
    };
    GrantedGroup { begin, end }
}

/// Replaces the record of a lock by that of the lock in another state, and tells where the granted locks of its name stand then. A granted
/// lock that stays granted has the sort key that it had, and so its place: nothing is shifted.
pub fn restate(
    printed: &mut ByPrintedOrder,
    own: &LockRecord,
    new: &LockRecord,
    name: &SpelledName,
    group: GrantedGroup,
) -> GrantedGroup
    requires sorted { IsSorted printed_cmp printed.old }
    requires named { name.now ≡ own.now.name }
    requires distinct { IsDistinct printed.old }
    requires there { lock_in printed.old own.now.lock ≡ Some own.now }
    requires restated { new.now ≡ in_state own.now new.now.state }
    requires group { IsGrantedGroup name.now printed.old group.begin group.end }
    ensures items { printed.new ≡ placed printed_cmp new.now (without printed.old own.now.lock) }
    ensures group { IsGrantedGroup name.now printed.new result.begin result.end }
{
    if is_granted(&own.state) && is_granted(&new.state) {
        let at = place_of(printed, own, name, group);
        printed.set(at, *new);
        return group;
    }
    let left = take_out(printed, own, name, group);
    put_in(printed, new, name, left)
}
