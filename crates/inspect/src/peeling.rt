ghost use Rattle.std.specs.Prelude.{◌≡◌, ◌<◌, true, false, ℕ, IfNone, IfSome, length};
ghost use Rattle.inspect.specs.declared.verdict.TheConstants.{CLIENT_NUMBERS};
ghost use Rattle.inspect.specs.Peeled.{HasBlocked, IsPeeled, AreHeldUp, IsHeldUp, is_left};

use crate::edges::PAIRS;
use crate::verdict::CLIENT_NUMBERS;
use arrayvec::ArrayVec;

/// The clients that are taken away, one after another, once none that is left keeps them waiting.
#[derive(Drop)]
pub struct Peeling {
    pub left: [bool; CLIENT_NUMBERS],
    pub ranks: [u8; CLIENT_NUMBERS],
    pub taken: ArrayVec<u8, CLIENT_NUMBERS>,
}

impl Peeling {
    /// Takes away all that can be, until none can be. No client without a flag in `wanting` is blocked.
    pub fn of(edges: &[bool; PAIRS], wanting: &[bool; CLIENT_NUMBERS]) -> Peeling
        requires { HasBlocked edges.now wanting.now }
        ensures peeled { IsPeeled edges.now result.left result.ranks result.taken.items }
        ensures held_up { AreHeldUp edges.now result.left }
    {
        let mut peeling = Peeling {
            left: [true; CLIENT_NUMBERS],
            ranks: [0; CLIENT_NUMBERS],
            taken: ArrayVec::new(),
        };
        while peeling.pass(edges, wanting) {}
        peeling
    }

    /// Takes away each client that none that is left keeps waiting, by rising number. Tells whether there was one.
    fn pass(&mut self, edges: &[bool; PAIRS], wanting: &[bool; CLIENT_NUMBERS]) -> bool
        requires peeled { IsPeeled edges.now self.old.left self.old.ranks self.old.taken.items }
        requires blocked { HasBlocked edges.now wanting.now }
        ensures peeled { IsPeeled edges.now self.new.left self.new.ranks self.new.taken.items }
        ensures more { result ≡ true → length self.old.taken.items < length self.new.taken.items }
        ensures held_up { result ≡ false → AreHeldUp edges.now self.new.left }
    {
        let before = self.taken.len();
        for a in 0..CLIENT_NUMBERS {
            if self.left[a] && !is_held_up(edges, wanting, &self.left, a) {
                self.take(edges, a);
            }
        }
        before < self.taken.len()
    }

    /// Takes one away.
    fn take(&mut self, edges: &[bool; PAIRS], a: usize)
        requires peeled { IsPeeled edges.now self.old.left self.old.ranks self.old.taken.items }
        requires fits { a < CLIENT_NUMBERS }
        requires left { is_left self.old.left a ≡ true }
        requires free { IsHeldUp edges.now self.old.left a → ⊥ }
        ensures peeled { IsPeeled edges.now self.new.left self.new.ranks self.new.taken.items }
        ensures more { length self.old.taken.items < length self.new.taken.items }
    {
        self.left[a] = false;
        self.ranks[a] = self.taken.len() as u8;
        self.taken.push(a as u8);
    }

    /// The least that is left.
    pub fn first_left(&self) -> Option<u8>
        ensures some { IfSome result (λ a. is_left self.now.left a ≡ true) }
        ensures none { IfNone result ((a : ℕ) → is_left self.now.left a ≡ false) }
    {
        for a in 0..CLIENT_NUMBERS {
            if self.left[a] {
                return Some(a as u8);
            }
        }
        None
    }
}

/// Whether one that is left keeps `a` waiting.
pub fn is_held_up(
    edges: &[bool; PAIRS],
    wanting: &[bool; CLIENT_NUMBERS],
    left: &[bool; CLIENT_NUMBERS],
    a: usize,
) -> bool
    requires fits { a < CLIENT_NUMBERS }
    requires blocked { HasBlocked edges.now wanting.now }
    ensures yes { result ≡ true → IsHeldUp edges.now left.now a }
    ensures no { result ≡ false → IsHeldUp edges.now left.now a → ⊥ }
{
    if !wanting[a] {
        return false;
    }
    let row = CLIENT_NUMBERS * a;
    let mut held_up = false;
    for b in 0..CLIENT_NUMBERS {
        held_up |= edges[row + b] & left[b];
    }
    held_up
}
