ghost use Rattle.std.specs.Prelude.{◌≡◌, ◌≤◌, ◌↔◌, ℕ, IsTrue, length};
ghost use Rattle.torn_block.specs.Block;
ghost use Rattle.torn_block.specs.Block.{sequence_of};
ghost use Rattle.torn_block.specs.Damage;
ghost use Rattle.torn_block.specs.Damage.{IsSequence};

use crate::block::{is_open, sequence_in};
use crate::layout::LAST_SEQUENCE;

/// Whether a copy may have this sequence number.
pub fn is_sequence(number: u64) -> bool
    ensures sound { IsTrue result ↔ IsSequence number }
    ensures exact { result ≡ Damage.is_sequence number }
{
    1 <= number && number <= LAST_SEQUENCE
}

/// Whether both copies are open, and have the same sequence number.
pub fn has_twins(first: &[u8], second: &[u8]) -> bool
    requires first { 16 ≤ length first.now }
    requires second { 16 ≤ length second.now }
    ensures twins { IsTrue result ↔ (IsTrue (Block.is_open first.now) × IsTrue (Block.is_open second.now) × (sequence_of first.now ≡ sequence_of second.now)) }
    ensures exact { result ≡ Damage.has_twins first.now second.now }
{
    is_open(first) && is_open(second) && sequence_in(first) == sequence_in(second)
}
