ghost use Rattle.std.specs.Prelude.{◌≡◌, ◌<◌, ◌≤◌, true, ℕ, All, IfSome, IfNone, length, slice_index, slice_index_or};
ghost use Rattle.inspect.specs.Blocked.{IsCycle};
ghost use Rattle.inspect.specs.Marks.{Marked};
ghost use Rattle.inspect.specs.Peeled.{AreHeldUp, is_left};
ghost use Rattle.inspect.specs.declared.verdict.TheConstants.{CLIENT_NUMBERS};
ghost use Rattle.inspect.specs.Trails.{IsTurned};

use crate::edges::PAIRS;
use crate::verdict::CLIENT_NUMBERS;
use arrayvec::ArrayVec;

/// A cycle among those that are left, found from `first` on: each that is left is kept waiting by one that is left.
pub fn cycle_from(
    edges: &[bool; PAIRS],
    left: &[bool; CLIENT_NUMBERS],
    first: u8,
) -> ArrayVec<u8, CLIENT_NUMBERS>
    requires held_up { AreHeldUp edges.now left.now }
    requires left { is_left left.now first ≡ true }
    ensures { IsCycle (Marked edges.now) result.items }
{
    let mut trail: ArrayVec<u8, CLIENT_NUMBERS> = ArrayVec::new();
    let mut last = first;
    trail.push(first);
    'steps: for _made in 0..CLIENT_NUMBERS {
        last = blocker_of(edges, left, last);
        if let Some(at) = place_of(&trail, last) {
            return turned(&trail.as_slice()[at..]);
        }
        trail.push(last);
    }
    unreachable!()
}

/// The least of those that are left that keeps `a` waiting.
fn blocker_of(edges: &[bool; PAIRS], left: &[bool; CLIENT_NUMBERS], a: u8) -> u8
    requires held_up { AreHeldUp edges.now left.now }
    requires left { is_left left.now a ≡ true }
    ensures marked { Marked edges.now a result }
    ensures left { is_left left.now result ≡ true }
{
    let row = CLIENT_NUMBERS * usize::from(a);
    for b in 0..CLIENT_NUMBERS {
        if edges[row + b] && left[b] {
            return b as u8;
        }
    }
    unreachable!()
}

/// The first place at which a client stands.
fn place_of(trail: &[u8], client: u8) -> Option<usize>
    ensures found { IfSome result (λ at. at < length trail.now) }
    ensures here { IfSome result (λ at. slice_index trail.now at ≡ client) }
    ensures none { IfNone result ((k : ℕ) → k < length trail.now → slice_index trail.now k ≡ client → ⊥) }
{
    for (at, other) in trail.iter().enumerate() {
        if *other == client {
            return Some(at);
        }
    }
    None
}

/// The same circle, turned so that the least client comes first.
fn turned(circle: &[u8]) -> ArrayVec<u8, CLIENT_NUMBERS>
    requires some { 0 < length circle.now }
    requires few { length circle.now ≤ CLIENT_NUMBERS }
    ensures turned { IsTurned circle.now result.items }
    ensures least { All (λ c. slice_index_or result.items 0 0 ≤ c) result.items }
{
    let least = place_of_least(circle);
    let mut result: ArrayVec<u8, CLIENT_NUMBERS> = ArrayVec::new();
    'behind: for client in &circle[least..] {
        result.push(*client);
    }
    'front: for client in &circle[..least] {
        result.push(*client);
    }
    result
}

/// Where the least stands.
fn place_of_least(circle: &[u8]) -> usize
    requires { 0 < length circle.now }
    ensures bound { result < length circle.now }
    ensures least { All (λ c. slice_index_or circle.now result 0 ≤ c) circle.now }
{
    let mut least = 0;
    for at in 1..circle.len() {
        if circle[at] < circle[least] {
            least = at;
        }
    }
    least
}
