// The bytes that a simulated disk keeps.
ghost use Rattle.std.specs.Prelude.{◌≡◌, ◌+◌, ◌-◌, ◌*◌, ◌%◌, ◌≤◌, ◌<◌, ◌^◌, false, ◌++◌, length, replicate, slice_range, vec_capacity};
ghost use Rattle.disk.specs.Disk.{put_at};
ghost use Rattle.disk.specs.Filling.{spread, filled};
ghost use Rattle.disk.specs.Marks.{all_marks};
ghost use Rattle.disk.specs.Pages.{HaveRooms, BlankOutside, seen};

use crate::pages::{PAGE, Page};
use crate::word::Word;

/// Reads the bytes from `at` on.
#[inline(always)]
pub fn get(bytes: &[u8], at: usize, into: &mut [u8])
    requires { at + length into.old ≤ length bytes.now }
    ensures { into.new ≡ slice_range bytes.now at (at + length into.old) }
{
    into.copy_from_slice(&bytes[at..at + into.len()]);
}

/// Reads a page: only its range is copied, all else are zeros.
#[inline(never)]
pub fn get_page(bytes: &[u8], page: Page, into: &mut [u8])
    requires whole { length into.old ≡ 4096 }
    requires range { page.to ≤ 4096 }
    requires kept { page.from < page.to → 4096 * page.room + 4096 ≤ length bytes.now }
    ensures blank { page.to ≤ page.from → into.new ≡ replicate 4096 0 }
    ensures range { page.from < page.to → into.new ≡ replicate page.from 0
        ++ (slice_range bytes.now (4096 * page.room + page.from) (4096 * page.room + page.to) ++ replicate (4096 - page.to) 0) }
{
    if page.from < page.to {
        let from = usize::from(page.from);
        let first = PAGE * page.room;
        into[..from].fill(0);
        copy_front(
            &bytes[first + from..first + usize::from(page.to)],
            &mut into[from..],
        );
    } else {
        into.fill(0);
    }
}

// Copies these bytes, and then zeros.
fn copy_front(from: &[u8], into: &mut [u8])
    requires { length from.now ≤ length into.old }
    ensures { into.new ≡ from.now ++ replicate (length into.old - length from.now) 0 }
{
    into[..from.len()].copy_from_slice(from);
    into[from.len()..].fill(0);
}

/// The range from `at` on holds these bytes.
#[inline(always)]
pub fn put(bytes: &mut Vec<u8>, at: usize, from: &[u8])
    requires { at + length from.now ≤ length bytes.old.items }
    ensures bytes { bytes.new.items ≡ put_at bytes.old.items at from.now }
    ensures capacity { vec_capacity bytes.new ≡ vec_capacity bytes.old }
{
    bytes[at..at + from.len()].copy_from_slice(from);
}

/// The range from `at` on takes the given bytes in turn, from the one at `first` on.
pub fn put_given(bytes: &mut Vec<u8>, at: usize, len: usize, first: usize, given: &[u8])
    requires range { at + len ≤ length bytes.old.items }
    requires given { 0 < length given.now }
    requires count { first + len < 2 ^ 64 }
    ensures bytes { bytes.new.items ≡ put_at bytes.old.items at (spread given.now first len) }
    ensures capacity { vec_capacity bytes.new ≡ vec_capacity bytes.old }
{
    if first + len <= given.len() {
        put(bytes, at, &given[first..first + len]);
    } else {
        put_in_turn(bytes, at, len, first, given);
    }
}

// What `put_given` does where the given bytes end before the range.
fn put_in_turn(bytes: &mut Vec<u8>, at: usize, len: usize, first: usize, given: &[u8])
    requires range { at + len ≤ length bytes.old.items }
    requires given { 0 < length given.now }
    requires count { first + len < 2 ^ 64 }
    ensures bytes { bytes.new.items ≡ put_at bytes.old.items at (spread given.now first len) }
    ensures capacity { vec_capacity bytes.new ≡ vec_capacity bytes.old }
{
    let mut turn = first % given.len();
    for i in 0..len {
        bytes[at + i] = given[turn];
        turn = turn_after(turn, given);
    }
}

// Which of the given bytes comes after the one at `turn`. To count on takes less time than a division for each byte.
#[inline(always)]
fn turn_after(turn: usize, given: &[u8]) -> usize
    requires { turn < length given.now }
    ensures { result ≡ (turn + 1) % length given.now }
{
    if turn + 1 < given.len() { turn + 1 } else { 0 }
}

/// The marked positions take the given bytes in turn, word by word. What lies outside the ranges of the pages, and words that mark
/// nothing, are passed at once.
pub fn fill_marked(
    bytes: &mut Vec<u8>,
    words: &Vec<Word>,
    pages: &Vec<Page>,
    size: usize,
    epoch: u64,
    given: &[u8],
)
    requires listed { size ≤ 4096 * length pages.now.items }
    requires capacity { 4096 * length pages.now.items ≤ vec_capacity bytes.old }
    requires rooms { HaveRooms pages.now.items (length bytes.old.items) }
    requires words { length bytes.old.items ≡ 64 * length words.now.items }
    requires blank { BlankOutside pages.now.items (seen pages.now.items 0 bytes.old.items size) (seen pages.now.items false (all_marks epoch words.now.items) size) }
    requires given { 0 < length given.now }
    ensures bytes { seen pages.now.items 0 bytes.new.items size
        ≡ filled given.now 0 (seen pages.now.items false (all_marks epoch words.now.items) size) (seen pages.now.items 0 bytes.old.items size) }
    ensures as_many { length bytes.new.items ≡ length bytes.old.items }
    ensures capacity { vec_capacity bytes.new ≡ vec_capacity bytes.old }
{
    let mut turn = 0;
    let mut i = 0;
    while i < size {
        let page = pages[i / PAGE];
        let first = i % PAGE;
        if first < usize::from(page.from) {
            i += PAGE.min(usize::from(page.from)) - first;
        } else if usize::from(page.to) <= first {
            i += PAGE - first;
        } else {
            let start = PAGE * page.room;
            let word = words[(start + first) / 64];
            let end = size.min(i + 64 - i % 64);
            if word.counted(epoch) != 0 {
                for k in i..end {
                    if word.is_marked(epoch, k % 64) {
                        bytes[start + k % PAGE] = given[turn];
                        turn = turn_after(turn, given);
                    }
                }
            }
            i = end;
        }
    }
}
