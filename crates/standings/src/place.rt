ghost use Rattle.std.specs.Prelude.{◌≡◌};
ghost use Rattle.torn_block.specs.Layout.{cluster_version};
ghost use Rattle.paxos_block.specs.Places as places;
ghost use Rattle.standings.specs.Epochs;
ghost use Rattle.standings.specs.Epochs.{base_of};

use paxos_block::image_length;
use torn_block::{BLOCK_LENGTH, ClusterLayout, ROW_LENGTH};

/// Where an area begins, in bytes from the start of the disk, as all places here. What an image has at a place, its area has so many bytes on.
pub fn area_base(slots: u16, area: u8) -> u64
    ensures { result ≡ base_of (places.image_length cluster_version slots) area }
{
    if area == 0 {
        0
    } else {
        ROW_LENGTH as u64 + area_length(slots)
    }
}

/// Where an area's row of standings begins.
pub fn standings_place(slots: u16, area: u8) -> u64
    ensures { result ≡ Epochs.standings_place (places.image_length cluster_version slots) area }
{
    area_length(slots) + ROW_LENGTH as u64 * u64::from(area)
}

/// Where a host's block in an area's row of standings begins.
pub fn number_place(slots: u16, area: u8, host: u8) -> u64
    ensures { result ≡ Epochs.number_place (places.image_length cluster_version slots) area host }
{
    standings_place(slots, area) + BLOCK_LENGTH as u64 * u64::from(host)
}

/// The bytes of a disk of two areas, each of so many slots.
pub fn whole_length(slots: u16) -> u64
    ensures { result ≡ Epochs.whole_length (places.image_length cluster_version slots) }
{
    ROW_LENGTH as u64 + 2 * area_length(slots)
}

// The bytes of an image of so many slots, and of an area.
fn area_length(slots: u16) -> u64
    ensures { result ≡ places.image_length cluster_version slots }
{
    image_length::<ClusterLayout>(u32::from(slots))
}
