// Where a simulated disk keeps its pages, and where each was written since the disk was new.
ghost use Rattle.std.specs.Prelude.{◌≡◌, ◌↔◌, ◌+◌, ◌*◌, ◌<◌, ◌≤◌, ℕ, false, length, All, vec_capacity};
ghost use Rattle.disk.specs.Marks.{all_marks};
ghost use Rattle.disk.specs.Pages.{nth_page, home, seen, HaveRooms, Covers};

use crate::word::Word;

/// How many bytes a page has.
pub const PAGE: usize = 4096;

/// The room of a page that has none. No memory reaches so far.
pub const NOWHERE: usize = usize::MAX;

/// A page of a disk.
#[derive(Clone, Copy)]
pub struct Page {
    /// Which of the pages that are kept it is, or `NOWHERE`. All bytes of a page without room are zeros.
    pub room: usize,
    /// The first byte of it that was written.
    pub from: u16,
    /// Behind the last byte of it that was written.
    pub to: u16,
}

/// A page that was not written.
pub const UNWRITTEN: Page = Page {
    room: NOWHERE,
    from: 4096,
    to: 0,
};

/// The page has room. If it had none it gets the next, with blank bytes and words, so nothing else changes. It takes no memory.
pub fn give_room(pages: &mut Vec<Page>, bytes: &mut Vec<u8>, words: &mut Vec<Word>, index: usize)
    requires within { index < length pages.old.items }
    requires rooms { HaveRooms pages.old.items (length bytes.old.items) }
    requires words { length bytes.old.items ≡ 64 * length words.old.items }
    requires capacity { 4096 * length pages.old.items ≤ vec_capacity bytes.old }
    requires word_capacity { 64 * length pages.old.items ≤ vec_capacity words.old }
    ensures bytes { (size : ℕ) → seen pages.new.items 0 bytes.new.items size ≡ seen pages.old.items 0 bytes.old.items size }
    ensures marks { (epoch size : ℕ) →
        seen pages.new.items false (all_marks epoch words.new.items) size ≡ seen pages.old.items false (all_marks epoch words.old.items) size }
    ensures no_later { (epoch : ℕ) → All (λ w. w.stamp ≤ epoch) words.old.items → All (λ w. w.stamp ≤ epoch) words.new.items }
    ensures ranges { (k : ℕ) → Covers pages.new.items k ↔ Covers pages.old.items k }
    ensures kept { 4096 * (nth_page pages.new.items index).room < length bytes.new.items }
    ensures rooms { HaveRooms pages.new.items (length bytes.new.items) }
    ensures words { length bytes.new.items ≡ 64 * length words.new.items }
    ensures as_many { length pages.new.items ≡ length pages.old.items }
    ensures capacity { vec_capacity bytes.old ≤ vec_capacity bytes.new }
    ensures word_capacity { vec_capacity words.old ≤ vec_capacity words.new }
{
    if pages[index].room == NOWHERE {
        pages[index] = Page {
            room: bytes.len() / PAGE,
            from: 4096,
            to: 0,
        };
        let _ = bytes.extend_from_slice(&[0; PAGE]);
        let _ = words.resize(bytes.len() / 64, Word { stamp: 0, bits: 0 });
    }
}

/// The bytes of the page from `from` up to `to`, that one left out, are in its range, too.
pub fn widen(pages: &mut Vec<Page>, index: usize, from: usize, to: usize)
    requires within { index < length pages.old.items }
    requires range { to ≤ 4096 }
    requires order { from ≤ to }
    ensures keeps { (k : ℕ) → Covers pages.old.items k → Covers pages.new.items k }
    ensures range { (k : ℕ) → 4096 * index + from ≤ k → k < 4096 * index + to → Covers pages.new.items k }
    ensures homes { (k : ℕ) → home pages.new.items k ≡ home pages.old.items k }
    ensures rooms { (n : ℕ) → HaveRooms pages.old.items n → 4096 * (nth_page pages.old.items index).room < n → HaveRooms pages.new.items n }
    ensures as_many { length pages.new.items ≡ length pages.old.items }
{
    let page = pages[index];
    pages[index] = Page {
        room: page.room,
        from: page.from.min(from as u16),
        to: page.to.max(to as u16),
    };
}
