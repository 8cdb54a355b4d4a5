ghost use Rattle.std.specs.Prelude.{◌≡◌, ◌≤◌, length, Some};
ghost use Rattle.torn_block.specs.Block;
ghost use Rattle.torn_block.specs.Block.{sequence_of, current_by};
ghost use Rattle.torn_block.specs.Layout.{block_length};
ghost use Rattle.torn_block.specs.Plan.{IsReading};

use crate::layout::{BODY_ROOM, HEADING_LENGTH, Layout};
use byteorder::{BigEndian, ByteOrder};

/// The gate of a copy that counts, and of an image that was formatted to the end. Any other byte there closes it.
pub const OPEN_GATE: u8 = 0xA5;

/// One of the two copies of a block.
#[derive(Clone, Copy, Debug, PartialEq, Eq)]
pub enum Half {
    First,
    Second,
}

/// The bytes of a copy that are its caller's: those between the gate and the sequence number, and those after that number.
#[derive(Clone, Copy, Debug, PartialEq, Eq)]
pub struct Body {
    /// Room for the body of the longest copy. In a layout with shorter copies the last bytes are not used, and may be anything.
    pub bytes: [u8; BODY_ROOM],
}

/// A block as it was read, with what is needed to write it next.
#[derive(Clone, Copy, Debug, PartialEq, Eq)]
pub struct Block128 {
    /// The copy that counts, or none where the block is blank.
    pub current: Option<Half>,
    /// The sequence number of the current copy, 0 for a blank block.
    pub sequence: u64,
    /// Whether the gate of the copy that is written next is open.
    pub next_is_open: bool,
}

impl Block128 {
    /// A block whose gates are both shut.
    pub const BLANK: Block128 = Block128 {
        current: None,
        sequence: 0,
        next_is_open: false,
    };
}

/// The block that these bytes are.
#[inline(always)]
pub fn read_block<L: Layout>(bytes: &[u8]) -> Block128
    requires { length bytes.now ≡ block_length L.version }
    ensures { IsReading L.version bytes.now result }
{
    let (first, second) = bytes.split_at(L::COPY_LENGTH);
    match current_in(first, second) {
        None => Block128 {
            next_is_open: is_open(first),
            ..Block128::BLANK
        },
        Some(Half::First) => block_of(Half::First, first, second),
        Some(Half::Second) => block_of(Half::Second, second, first),
    }
}

// The block whose current copy has these bytes, and whose other copy those.
#[inline(always)]
fn block_of(current: Half, kept: &[u8], target: &[u8]) -> Block128
    requires kept { 16 ≤ length kept.now }
    requires target { 16 ≤ length target.now }
    ensures current { result.current ≡ Some current }
    ensures sequence { result.sequence ≡ sequence_of kept.now }
    ensures next { result.next_is_open ≡ Block.is_open target.now }
{
    Block128 {
        current: Some(current),
        sequence: sequence_in(kept),
        next_is_open: is_open(target),
    }
}

/// Whether a copy counts, by its gate.
pub fn is_open(copy: &[u8]) -> bool
    requires { 16 ≤ length copy.now }
    ensures { result ≡ Block.is_open copy.now }
{
    copy[0] == OPEN_GATE
}

/// A copy's sequence number, whether it counts or not.
pub fn sequence_in(copy: &[u8]) -> u64
    requires { 16 ≤ length copy.now }
    ensures { result ≡ sequence_of copy.now }
{
    BigEndian::read_u64(&copy[HEADING_LENGTH + 1..])
}

fn current_in(first: &[u8], second: &[u8]) -> Option<Half>
    requires first { 16 ≤ length first.now }
    requires second { 16 ≤ length second.now }
    ensures { result ≡ current_by first.now second.now }
{
    match (is_open(first), is_open(second)) {
        (true, true) => {
            if sequence_in(first) < sequence_in(second) {
                Some(Half::Second)
            } else {
                Some(Half::First)
            }
        }
        (true, false) => Some(Half::First),
        (false, true) => Some(Half::Second),
        (false, false) => None,
    }
}
