ghost use Rattle.std.specs.Prelude.{◌≡◌, ◌⊎◌, ◌+◌, ◌*◌, ◌<◌, ◌≤◌, true, false, ℕ, Some, [], length, slice_get, slice_index_or};
ghost use Rattle.lock_command.specs.State.{is_waiting};
ghost use Rattle.lock_command.specs.declared.record.LockRecord.{LockRecord};
ghost use Rattle.inspect.specs.Blocked.{IsBlockedBy};
ghost use Rattle.inspect.specs.Marks.{ArePlaces, HasNameOf, IsQueue, IsRun, IsSeen, ListsWanting, Marked, MarksPair, MarksPlace, MarksRun};

use crate::blocked::{is_in_the_way, is_waiting, wants};
use crate::verdict::CLIENT_NUMBERS;
use arrayvec::ArrayVec;
use lock_table::LockRecord;

/// A flag for each pair of clients.
pub const PAIRS: usize = CLIENT_NUMBERS * CLIENT_NUMBERS;

/// How many locks are listed at once: as many as a table takes.
const AT_ONCE: usize = 256;

/// Which client is blocked by which: of the pair of `a` and `b` at `256 * a + b`.
pub fn edges_of(locks: &[LockRecord]) -> [bool; PAIRS]
    ensures sound { (a b : ℕ) → Marked result a b → IsBlockedBy locks.now a b }
    ensures complete { (a b : ℕ) → IsBlockedBy locks.now a b → Marked result a b }
{
    let mut edges = [false; PAIRS];
    let mut from = 0;
    while from < locks.len() {
        let mut wanting = ArrayVec::new();
        from = list_wanting(locks, from, &mut wanting);
        mark_runs(&mut edges, locks, &wanting);
    }
    edges
}

/// Which clients have a lock that wants something. No other is blocked.
pub fn clients_that_want(locks: &[LockRecord]) -> [bool; CLIENT_NUMBERS]
    ensures { (a b : ℕ) → IsBlockedBy locks.now a b → slice_index_or result a false ≡ true }
{
    let mut clients = [false; CLIENT_NUMBERS];
    'locks: for lock in locks {
        if wants(lock) {
            clients[usize::from(lock.client.get())] = true;
        }
    }
    clients
}

/// Lists the places of locks that want something, from a place on. Gives the place up to which it came, which is behind the
/// last lock, but for a longer list than a picture of a table takes.
fn list_wanting(locks: &[LockRecord], from: usize, wanting: &mut ArrayVec<usize, AT_ONCE>) -> usize
    requires fits { from < length locks.now }
    requires empty { wanting.old.items ≡ [] }
    ensures more { from < result }
    ensures fits { result ≤ length locks.now }
    ensures places { ArePlaces locks.now wanting.new.items }
    ensures listed { ListsWanting locks.now from result wanting.new.items }
{
    let mut to = from;
    while to < locks.len() && !wanting.is_full() {
        if wants(&locks[to]) {
            wanting.push(to);
        }
        to += 1;
    }
    to
}

/// Marks the clients of the listed locks, run by run of those that block them.
fn mark_runs(edges: &mut [bool; PAIRS], locks: &[LockRecord], wanting: &[usize])
    requires places { ArePlaces locks.now wanting.now }
    ensures kept { (a b : ℕ) → Marked edges.old a b → Marked edges.new a b }
    ensures complete { (k : ℕ) → k < length wanting.now → MarksPlace locks.now (slice_index_or wanting.now k 0) (length locks.now) edges.new }
    ensures sound { (a b : ℕ) → Marked edges.new a b → Marked edges.old a b ⊎ IsBlockedBy locks.now a b }
{
    if wanting.is_empty() {
        return;
    }
    let mut seen = [0; CLIENT_NUMBERS];
    let mut start = 0;
    while start < locks.len() {
        let end = end_of_run(locks, start);
        mark_blocked(edges, &mut seen, locks, wanting, start, end);
        start = end;
    }
}

/// The index after the last lock of the run of one name that begins at `start`. In printed order a run has all locks of its
/// name, so names are compared once for each lock and not for each pair.
fn end_of_run(locks: &[LockRecord], start: usize) -> usize
    requires { start < length locks.now }
    ensures more { start < result }
    ensures fits { result ≤ length locks.now }
    ensures run { IsRun locks.now start result }
{
    let mut end = start + 1;
    while end < locks.len() && locks[end].name == locks[start].name {
        end += 1;
    }
    end
}

/// Where the locks of a run that wait begin: from there on each waits. In printed order no other lock of the run waits.
fn start_of_queue(locks: &[LockRecord], start: usize, end: usize) -> usize
    requires { (start < end) × (end ≤ length locks.now) }
    ensures fits { (start ≤ result) × (result ≤ end) }
    ensures queue { IsQueue locks.now result end }
{
    let mut queue = end;
    while start < queue && is_waiting(&locks[queue - 1]) {
        queue -= 1;
    }
    queue
}

/// Marks the clients of the listed locks that are blocked by those of a run. For each client `seen` has the place before
/// which those that wait in the run are marked.
fn mark_blocked(
    edges: &mut [bool; PAIRS],
    seen: &mut [usize; CLIENT_NUMBERS],
    locks: &[LockRecord],
    wanting: &[usize],
    start: usize,
    end: usize,
)
    requires fits { (start < end) × (end ≤ length locks.now) }
    requires run { IsRun locks.now start end }
    requires places { ArePlaces locks.now wanting.now }
    requires seen { (a : ℕ) → slice_index_or seen.old a 0 ≤ start }
    ensures kept { (a b : ℕ) → Marked edges.old a b → Marked edges.new a b }
    ensures complete { (k : ℕ) → k < length wanting.now → MarksRun locks.now (slice_index_or wanting.now k 0) start end edges.new }
    ensures sound { (a b : ℕ) → Marked edges.new a b → Marked edges.old a b ⊎ IsBlockedBy locks.now a b }
    ensures seen { (a : ℕ) → slice_index_or seen.new a 0 ≤ end }
{
    let queue = start_of_queue(locks, start, end);
    'listed: for place in wanting {
        mark_blockers(edges, seen, locks, *place, start, queue, end);
    }
}

/// Marks the clients of a run that the lock at place `i` is blocked by.
fn mark_blockers(
    edges: &mut [bool; PAIRS],
    seen: &mut [usize; CLIENT_NUMBERS],
    locks: &[LockRecord],
    i: usize,
    start: usize,
    queue: usize,
    end: usize,
)
    requires place { i < length locks.now }
    requires fits { (start < end) × (end ≤ length locks.now) }
    requires within { (start ≤ queue) × (queue ≤ end) }
    requires run { IsRun locks.now start end }
    requires queue { IsQueue locks.now queue end }
    requires seen { IsSeen locks.now queue end edges.old seen.old }
    ensures kept { (a b : ℕ) → Marked edges.old a b → Marked edges.new a b }
    ensures complete { MarksRun locks.now i start end edges.new }
    ensures sound { (a b : ℕ) → Marked edges.new a b → Marked edges.old a b ⊎ IsBlockedBy locks.now a b }
    ensures seen { IsSeen locks.now queue end edges.new seen.new }
{
    if locks[i].name != locks[start].name {
        return;
    }
    mark_places(edges, locks, i, start, queue);
    if is_waiting(&locks[i]) {
        mark_queue(edges, seen, locks, i, queue, end);
    }
}

/// Marks the clients of the locks from one place up to another that the lock at place `i`, which has their name, is blocked by.
fn mark_places(edges: &mut [bool; PAIRS], locks: &[LockRecord], i: usize, from: usize, to: usize)
    requires place { i < length locks.now }
    requires fits { to ≤ length locks.now }
    requires name { HasNameOf locks.now i from to }
    ensures kept { (a b : ℕ) → Marked edges.old a b → Marked edges.new a b }
    ensures complete { MarksRun locks.now i from to edges.new }
    ensures sound { (a b : ℕ) → Marked edges.new a b → Marked edges.old a b ⊎ IsBlockedBy locks.now a b }
{
    for j in from..to {
        mark_pair(edges, locks, i, j);
    }
}

/// Marks the clients of the locks that wait in a run before the lock at place `i`, which waits too. What was marked for
/// an earlier lock of its client is not looked at again.
fn mark_queue(
    edges: &mut [bool; PAIRS],
    seen: &mut [usize; CLIENT_NUMBERS],
    locks: &[LockRecord],
    i: usize,
    queue: usize,
    end: usize,
)
    requires place { i < length locks.now }
    requires fits { (queue ≤ end) × (end ≤ length locks.now) }
    requires name { HasNameOf locks.now i queue end }
    requires queue { IsQueue locks.now queue end }
    requires waits { (x : LockRecord) → slice_get locks.now i ≡ Some x → is_waiting x.state ≡ true }
    requires seen { IsSeen locks.now queue end edges.old seen.old }
    ensures kept { (a b : ℕ) → Marked edges.old a b → Marked edges.new a b }
    ensures complete { MarksRun locks.now i queue end edges.new }
    ensures sound { (a b : ℕ) → Marked edges.new a b → Marked edges.old a b ⊎ IsBlockedBy locks.now a b }
    ensures seen { IsSeen locks.now queue end edges.new seen.new }
{
    let client = usize::from(locks[i].client.get());
    let from = seen[client].max(queue);
    let to = i.min(end);
    if from < to {
        mark_places(edges, locks, i, from, to);
        seen[client] = to;
    }
}

/// Marks the client of the lock at place `j`, where it blocks the lock at place `i`, which has its name.
fn mark_pair(edges: &mut [bool; PAIRS], locks: &[LockRecord], i: usize, j: usize)
    requires fits { (i < length locks.now) × (j < length locks.now) }
    requires name { (x y : LockRecord) → slice_get locks.now i ≡ Some x → slice_get locks.now j ≡ Some y → x.name ≡ y.name }
    ensures kept { (a b : ℕ) → Marked edges.old a b → Marked edges.new a b }
    ensures complete { MarksPair locks.now i j edges.new }
    ensures sound { (a b : ℕ) → Marked edges.new a b → Marked edges.old a b ⊎ IsBlockedBy locks.now a b }
{
    let (x, y) = (&locks[i], &locks[j]);
    let pair = CLIENT_NUMBERS * usize::from(x.client.get()) + usize::from(y.client.get());
    if !edges[pair] && is_in_the_way(i, x, j, y) {
        edges[pair] = true;
    }
}
