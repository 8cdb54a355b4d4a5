ghost use Rattle.std.specs.Prelude.{◌≡◌, ◌-◌, ◌<◌, ◌≤◌, ◌^◌, ℕ, true};
ghost use Rattle.disk.specs.Marks.{counted, is_marked_in};

/// Sixty-four positions in turn. If the stamp is the present epoch, the positions whose bit is set are marked. If it is an
/// earlier epoch, none is marked.
#[derive(Clone, Copy)]
pub struct Word {
    pub stamp: u64,
    /// A bit for each position, the first position in the lowest bit.
    pub bits: u64,
}

impl Word {
    /// Whether this place of the word is marked.
    pub fn is_marked(self, epoch: u64, place: usize) -> bool
        requires { place < 64 }
        ensures { result ≡ is_marked_in epoch self place }
    {
        (self.counted(epoch) >> place) & 1 == 1
    }

    /// The word in which the places from `from` up to `to`, that one left out, are marked, too.
    pub fn marked(self, epoch: u64, from: usize, to: usize) -> Word
        requires first { from < 64 }
        requires some { 0 < to }
        requires order { from ≤ to }
        requires last { to ≤ 64 }
        ensures stamp { result.stamp ≡ epoch }
        ensures below { (k : ℕ) → k < from → is_marked_in epoch result k ≡ is_marked_in epoch self k }
        ensures inside { (k : ℕ) → from ≤ k → k < to → is_marked_in epoch result k ≡ true }
        ensures above { (k : ℕ) → to ≤ k → is_marked_in epoch result k ≡ is_marked_in epoch self k }
    {
        Word {
            stamp: epoch,
            bits: self.counted(epoch) | run(from, to),
        }
    }

    /// The bits that count.
    pub fn counted(self, epoch: u64) -> u64
        ensures { result ≡ counted epoch self }
    {
        if self.stamp == epoch { self.bits } else { 0 }
    }
}

// The bits from `from` up to `to`, that one left out.
fn run(from: usize, to: usize) -> u64
    requires first { from < 64 }
    requires some { 0 < to }
    requires order { from ≤ to }
    requires last { to ≤ 64 }
    ensures { result ≡ 2 ^ to - 2 ^ from }
{
    (u64::MAX >> (64 - to)) - ((1 << from) - 1)
}
