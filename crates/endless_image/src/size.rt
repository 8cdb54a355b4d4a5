ghost use Rattle.std.specs.Prelude.{◌≡◌, ◌<◌, ◌≤◌, ◌^◌};
ghost use Rattle.torn_block.specs.Layout.{cluster_version};
ghost use Rattle.torn_block.specs.declared.layout.TheConstants.{SLOTS};
ghost use Rattle.paxos_block.specs.Headers.{short_at};
ghost use Rattle.paxos_block.specs.Places as places;
ghost use Rattle.standings.specs.Epochs.{whole_length};
ghost use Rattle.endless_image.specs.Sizes.{size_of};

use crate::header::SLOTS_AT;
use crate::number::short_in;
use paxos_block::image_length;
use torn_block::{ClusterLayout, HEADER_LENGTH, ROW_LENGTH};

/// The fewest slots of an epoch. At its start up to 288 commands carry a table over, and some slots have to be left for others.
pub const LEAST_SLOTS: u32 = 320;

/// The bytes of an image whose epochs have so many slots.
pub fn image_size(slots: u32) -> u64
    ensures size { result ≡ size_of slots }
    // A place in an image is one in a file of any system.
    ensures small { slots ≤ SLOTS → result < 2 ^ 26 }
{
    ROW_LENGTH as u64 + 2 * image_length::<ClusterLayout>(slots)
}

/// How long an image is by its first bytes, whether they are right or not.
pub fn told_size(bytes: &[u8; HEADER_LENGTH]) -> u64
    ensures { result ≡ size_of (short_at SLOTS_AT bytes.now) }
{
    image_size(short_in(&bytes[SLOTS_AT..]))
}
