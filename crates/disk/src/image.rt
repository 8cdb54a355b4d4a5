ghost use Rattle.std.specs.Prelude.{◌≡◌, ◌+◌, ◌%◌, ◌≤◌, ◌<◌, ◌^◌, false, length, replicate, slice_range, IfOk};
ghost use Rattle.disk.specs.Filling.{spread, filled};
ghost use Rattle.disk.specs.Image.{overwritten};

use crate::NoMemory;
use crate::bytes::{fill_marked, get, get_page, put, put_given};
use crate::marks::{mark, next_epoch};
use crate::pages::{NOWHERE, PAGE, Page, UNWRITTEN, give_room, widen};
use crate::word::Word;
use std::alloc::Global;
use std::marker::Model;

/// What a simulated disk holds: its bytes, and which of them are unsynced. A page gets room at its first write, in the order of
/// first writes, within the memory that `new` asked for. One that has none reads as zeros.
#[derive(Drop)]
pub struct Image {
    /// The pages that have room.
    bytes: Vec<u8>,
    /// A word for each 64 of these bytes.
    words: Vec<Word>,
    /// The pages of the disk, up to the one in which the position behind its last byte lies.
    pages: Vec<Page>,
    size: usize,
    epoch: u64,
}

impl Model for Image {
    ghost use Rattle.std.specs.Prelude.{◌≡◌, ◌+◌, ◌*◌, ◌/◌, ◌≤◌, false, length, All, vec_capacity};
    ghost use Rattle.disk.specs.Image.{Contents};
    ghost use Rattle.disk.specs.Marks.{all_marks};
    ghost use Rattle.disk.specs.Pages.{seen, HaveRooms, BlankOutside};

    ghost Value = { Contents };

    ghost view = { λ d. record {
      bytes = seen d.pages.items 0 d.bytes.items d.size;
      unsynced = seen d.pages.items false (all_marks d.epoch d.words.items) d.size;
    } };

    ghost invariant = { λ d. record {
      listed : length d.pages.items ≡ d.size / 4096 + 1;
      rooms : HaveRooms d.pages.items (length d.bytes.items);
      words : length d.bytes.items ≡ 64 * length d.words.items;
      capacity : 4096 * length d.pages.items ≤ vec_capacity d.bytes;
      word_capacity : 64 * length d.pages.items ≤ vec_capacity d.words;
      blank : BlankOutside d.pages.items (seen d.pages.items 0 d.bytes.items d.size) (seen d.pages.items false (all_marks d.epoch d.words.items) d.size);
      no_later : All (λ w. w.stamp ≤ d.epoch) d.words.items;
    } };
}

impl Image {
    /// An image of zeros.
    pub fn new(alloc: Global, size: usize) -> Result<Image, NoMemory>
        ensures { IfOk result (λ d. d ≡ record { bytes = replicate size 0; unsynced = replicate size false }) }
    {
        let count = size / PAGE + 1;
        Ok(Image {
            bytes: Vec::with_capacity(alloc, PAGE.saturating_mul(count))?,
            words: Vec::with_capacity(alloc, PAGE / 64 * count)?,
            pages: vec![in alloc; UNWRITTEN; count]?,
            size,
            epoch: 1,
        })
    }

    /// Makes the image one of zeros again. It takes no memory, and writes no zeros: the room of its pages is used anew.
    pub fn clear(&mut self)
        ensures { self.new ≡ record { bytes = replicate (length self.old.bytes) 0; unsynced = replicate (length self.old.bytes) false } }
    {
        self.bytes.clear();
        self.words.clear();
        self.pages.fill(UNWRITTEN);
        self.epoch = 1;
    }

    /// How many bytes there are.
    pub fn len(&self) -> usize
        ensures { result ≡ length self.now.bytes }
    {
        self.size
    }

    /// Reads the bytes from `at` on.
    #[inline(always)]
    pub fn read(&self, at: usize, into: &mut [u8])
        requires { at + length into.old ≤ length self.now.bytes }
        ensures { into.new ≡ slice_range self.now.bytes at (at + length into.old) }
    {
        let page = self.pages[at / PAGE];
        let first = at % PAGE;
        if first == 0 && into.len() == PAGE {
            get_page(&self.bytes, page, into);
        } else if page.room != NOWHERE && into.len() <= PAGE - first {
            // The length that the caller knows is the one that is copied: the compiler sees it.
            get(&self.bytes, PAGE * page.room + first, into);
        } else {
            self.read_pages(at, into);
        }
    }

    /// The range from `at` on holds these bytes, unsynced.
    #[inline(always)]
    pub fn overwrite(&mut self, at: usize, from: &[u8])
        requires { at + length from.now ≤ length self.old.bytes }
        ensures { self.new ≡ overwritten self.old at from.now }
    {
        let page = self.pages[at / PAGE];
        let first = at % PAGE;
        // Most writes are where something was written before.
        if usize::from(page.from) <= first && first + from.len() <= usize::from(page.to) {
            let place = PAGE * page.room + first;
            put(&mut self.bytes, place, from);
            mark(&mut self.words, place, place + from.len(), self.epoch);
        } else {
            // As many bytes are given as the range has, so each takes its own.
            self.fill(at, from.len(), from);
        }
    }

    /// The range from `at` on takes the given bytes in turn, unsynced.
    #[inline(never)]
    pub fn fill(&mut self, at: usize, len: usize, given: &[u8])
        requires range { at + len ≤ length self.old.bytes }
        requires given { 0 < len → 0 < length given.now }
        ensures { self.new ≡ overwritten self.old at (spread given.now 0 len) }
    {
        prove!(len <= self.size - at);
        let mut done = 0;
        while done < len {
            let next = at + done;
            let more = (len - done).min(PAGE - next % PAGE);
            self.fill_page(next, more, done, given);
            done += more;
        }
    }

    /// The unsynced positions take the given bytes in turn.
    pub fn fill_unsynced(&mut self, given: &[u8])
        requires { 0 < length given.now }
        ensures { self.new ≡ record { bytes = filled given.now 0 self.old.unsynced self.old.bytes; unsynced = self.old.unsynced } }
    {
        fill_marked(
            &mut self.bytes,
            &self.words,
            &self.pages,
            self.size,
            self.epoch,
            given,
        );
    }

    /// Nothing is unsynced.
    pub fn settle(&mut self)
        ensures { self.new ≡ record { bytes = self.old.bytes; unsynced = replicate (length self.old.bytes) false } }
    {
        self.epoch = next_epoch(&mut self.words, self.epoch);
    }

    // Reads the bytes from `at` on, page by page.
    #[inline(never)]
    fn read_pages(&self, at: usize, into: &mut [u8])
        requires { at + length into.old ≤ length self.now.bytes }
        ensures { into.new ≡ slice_range self.now.bytes at (at + length into.old) }
    {
        prove!(into.len() <= self.size - at);
        let mut done = 0;
        while done < into.len() {
            let next = at + done;
            let more = (into.len() - done).min(PAGE - next % PAGE);
            self.read_in_page(next, &mut into[done..done + more]);
            done += more;
        }
    }

    // Reads some bytes of one page.
    fn read_in_page(&self, at: usize, into: &mut [u8])
        requires range { at + length into.old ≤ length self.now.bytes }
        requires one { at % 4096 + length into.old ≤ 4096 }
        ensures { into.new ≡ slice_range self.now.bytes at (at + length into.old) }
    {
        let page = self.pages[at / PAGE];
        if page.room == NOWHERE {
            into.fill(0);
        } else {
            get(&self.bytes, PAGE * page.room + at % PAGE, into);
        }
    }

    // A range of one page takes the given bytes in turn, from the one at `first` on.
    fn fill_page(&mut self, at: usize, len: usize, first: usize, given: &[u8])
        requires range { at + len ≤ length self.old.bytes }
        requires one { at % 4096 + len ≤ 4096 }
        requires given { 0 < length given.now }
        requires count { first + len < 2 ^ 64 }
        ensures { self.new ≡ overwritten self.old at (spread given.now first len) }
    {
        let index = at / PAGE;
        let from = at % PAGE;
        give_room(&mut self.pages, &mut self.bytes, &mut self.words, index);
        widen(&mut self.pages, index, from, from + len);
        let place = PAGE * self.pages[index].room + from;
        put_given(&mut self.bytes, place, len, first, given);
        mark(&mut self.words, place, place + len, self.epoch);
    }
}
