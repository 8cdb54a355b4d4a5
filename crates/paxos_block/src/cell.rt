ghost use Rattle.std.specs.Prelude.{◌≡◌, ℕ, List, IsTrue, length, IfOk, OnErr};
ghost use Rattle.torn_block.specs.Block.{value_of, body_of, copy_of};
ghost use Rattle.torn_block.specs.Layout.{copy_length, block_length};
ghost use Rattle.torn_block.specs.Damage;
ghost use Rattle.torn_block.specs.Damage.{IsDamagedBlock, first_of, second_of};
ghost use Rattle.torn_block.specs.Plan.{IsReading};
ghost use Rattle.paxos_block.specs.Saying.{claim_of, said_as};
ghost use Rattle.paxos_block.specs.Row as rows;
ghost use Rattle.paxos_block.specs.Row.{IsCell, IsSound, blank_cell, says_of};

use crate::block::{PBlock, claim, is_said};
use crate::damaged::Damaged;
use torn_block::{
    Block128, HEADING_LENGTH, Half, Layout, has_twins, is_open, is_sequence, read_block,
    sequence_in,
};

/// A host's block of a slot, as it was read.
#[derive(Clone, Copy, Debug, PartialEq, Eq)]
pub struct Cell<V> {
    /// The block's copies, as a writer of the block needs them.
    pub block: Block128,
    /// What it says; a blank block says `PBlock::blank`.
    pub says: PBlock<V>,
}

impl<V: Copy> Cell<V> {
    /// A block whose gates are both shut.
    #[inline(always)]
    pub fn blank() -> Cell<V>
        ensures { result ≡ blank_cell }
    {
        Cell {
            block: Block128::BLANK,
            says: PBlock::blank(),
        }
    }
}

/// The cell that these bytes of a host's block are.
// Out of line it would be copied once more.
#[inline(always)]
pub(crate) fn read_cell<L: Layout>(host: u8, bytes: &[u8]) -> Result<Cell<L::Value>, Damaged>
    requires { length bytes.now ≡ block_length L.version }
    ensures cell { IfOk result (IsCell L.version L.spelled host bytes.now) }
    ensures damaged { OnErr result (IsDamagedBlock L.version (IsSound L.version host) bytes.now) }
{
    let (first, second) = bytes.split_at(L::COPY_LENGTH);
    if is_damaged::<L>(host, first, second) {
        return Err(Damaged);
    }
    let block = read_block::<L>(bytes);
    let says = says_in::<L>(&block, first, second);
    Ok(Cell { block, says })
}

// Whether the gates of a block are both shut.
pub(crate) fn is_blank<L: Layout>(bytes: &[u8]) -> bool
    requires { length bytes.now ≡ block_length L.version }
    ensures { IsTrue result → (host : ℕ) → IsCell L.version L.spelled host bytes.now blank_cell }
{
    let (first, second) = bytes.split_at(L::COPY_LENGTH);
    !is_open(first) && !is_open(second)
}

// What a block with these copies says, as it was read.
#[inline(always)]
fn says_in<L: Layout>(block: &Block128, first: &[u8], second: &[u8]) -> PBlock<L::Value>
    requires first { length first.now ≡ copy_length L.version }
    requires second { length second.now ≡ copy_length L.version }
    ensures { (bytes : List ℕ) → IsReading L.version bytes block.now → first.now ≡ first_of L.version bytes →
        second.now ≡ second_of L.version bytes → said_as L.spelled result ≡ says_of L.version (value_of L.version bytes) }
{
    match block.current {
        None => PBlock::blank(),
        Some(half) => half_says::<L>(half, first, second),
    }
}

// What one of these copies says.
#[inline(always)]
fn half_says<L: Layout>(half: Half, first: &[u8], second: &[u8]) -> PBlock<L::Value>
    requires first { length first.now ≡ copy_length L.version }
    requires second { length second.now ≡ copy_length L.version }
    ensures { (bytes : List ℕ) → first.now ≡ first_of L.version bytes → second.now ≡ second_of L.version bytes →
        said_as L.spelled result ≡ claim_of L.version (body_of (copy_of L.version half bytes)) }
{
    match half {
        Half::First => claim_in::<L>(first),
        Half::Second => claim_in::<L>(second),
    }
}

// What a copy says, read in place.
#[inline(always)]
fn claim_in<L: Layout>(copy: &[u8]) -> PBlock<L::Value>
    requires { length copy.now ≡ copy_length L.version }
    ensures { said_as L.spelled result ≡ claim_of L.version (body_of copy.now) }
{
    claim::<L>(&copy[1..=HEADING_LENGTH], &copy[HEADING_LENGTH + 9..])
}

// Whether these bytes of a host's block are damaged.
pub(crate) fn is_damaged_block<L: Layout>(host: u8, bytes: &[u8]) -> bool
    requires { length bytes.now ≡ block_length L.version }
    ensures { result ≡ Damage.is_damaged_block L.version (rows.is_sound L.version host) bytes.now }
{
    let (first, second) = bytes.split_at(L::COPY_LENGTH);
    is_damaged::<L>(host, first, second)
}

fn is_damaged<L: Layout>(host: u8, first: &[u8], second: &[u8]) -> bool
    requires first { length first.now ≡ copy_length L.version }
    requires second { length second.now ≡ copy_length L.version }
    ensures { result ≡ Damage.is_damaged (rows.is_sound L.version host) first.now second.now }
{
    has_fault::<L>(host, first) || has_fault::<L>(host, second) || has_twins(first, second)
}

fn has_fault<L: Layout>(host: u8, copy: &[u8]) -> bool
    requires { length copy.now ≡ copy_length L.version }
    ensures { result ≡ Damage.has_fault (rows.is_sound L.version host) copy.now }
{
    is_open(copy) && !is_sound::<L>(host, copy)
}

// The body is tested in place: nothing is copied before the block is known to be sound.
fn is_sound<L: Layout>(host: u8, copy: &[u8]) -> bool
    requires { length copy.now ≡ copy_length L.version }
    ensures { result ≡ rows.is_sound L.version host copy.now }
{
    is_sequence(sequence_in(copy))
        && is_said::<L>(host, &copy[1..=HEADING_LENGTH], &copy[HEADING_LENGTH + 9..])
}
