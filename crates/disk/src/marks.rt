// Which positions of a simulated disk are unsynced, a bit for each. The bits of a word count only while its stamp is the
// present epoch. So a write changes only the words of its own range. A sync only raises the epoch, however large the disk
// is and however much was written.
ghost use Rattle.std.specs.Prelude.{◌≡◌, ◌-◌, ◌*◌, ◌≤◌, ℕ, true, false, length, replicate, All, vec_capacity};
ghost use Rattle.disk.specs.Disk.{put_at};
ghost use Rattle.disk.specs.Marks.{marks};

use crate::word::Word;

/// The positions from `at` up to `end`, that one left out, are marked, too.
#[inline(always)]
pub fn mark(words: &mut Vec<Word>, at: usize, end: usize, epoch: u64)
    requires order { at ≤ end }
    requires within { end ≤ 64 * length words.old.items }
    ensures marks { (size : ℕ) → end ≤ size →
        marks epoch words.new.items size ≡ put_at (marks epoch words.old.items size) at (replicate (end - at) true) }
    ensures no_later { All (λ w. w.stamp ≤ epoch) words.old.items → All (λ w. w.stamp ≤ epoch) words.new.items }
    ensures as_many { length words.new.items ≡ length words.old.items }
    ensures capacity { vec_capacity words.new ≡ vec_capacity words.old }
{
    let mut index = at / 64;
    let mut from = at % 64;
    // Counted from the first place of the word.
    let mut left = end - 64 * index;
    while left > 64 {
        words[index] = words[index].marked(epoch, from, 64);
        index += 1;
        from = 0;
        left -= 64;
    }
    if from < left {
        words[index] = words[index].marked(epoch, from, left);
    }
}

/// The next epoch. No stamp has it, so nothing is marked. After the last number the epoch starts again, and all words are
/// cleared: that happens once in 2^64 - 2 times.
pub fn next_epoch(words: &mut Vec<Word>, epoch: u64) -> u64
    requires { All (λ w. w.stamp ≤ epoch) words.old.items }
    ensures none { (size : ℕ) → marks result words.new.items size ≡ replicate size false }
    ensures no_later { All (λ w. w.stamp ≤ result) words.new.items }
    ensures as_many { length words.new.items ≡ length words.old.items }
    ensures capacity { vec_capacity words.new ≡ vec_capacity words.old }
{
    if epoch == u64::MAX {
        words.fill(Word { stamp: 0, bits: 0 });
        1
    } else {
        epoch + 1
    }
}
