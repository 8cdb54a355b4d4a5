ghost use Rattle.std.specs.Prelude.{◌≡◌, ◌≤◌, ◌<◌, ℕ, IfSome, slice_index};
ghost use Rattle.torn_block.specs.declared.layout.TheConstants.{HOSTS, LAST_SEQUENCE};
ghost use Rattle.standings.specs.declared.epoch.TheConstants.{LAST_EPOCH};
ghost use Rattle.standings.specs.Epochs as epochs;
ghost use Rattle.standings.specs.Epochs.{IsNewest, epoch_of};

use torn_block::{HOSTS, LAST_SEQUENCE};

/// Epochs are counted from 0 to this one. Each number that a row of standings can say belongs to none above it.
pub const LAST_EPOCH: u64 = LAST_SEQUENCE;

/// An epoch: its area, 0 or 1, and the number that hosts have there while they are inside of it.
#[derive(Clone, Copy, Debug, PartialEq, Eq)]
pub struct Epoch {
    pub area: u8,
    pub number: u64,
}

impl Epoch {
    /// The epoch at this place of the order of all epochs.
    pub fn new(order: u64) -> Self
        requires { order ≤ LAST_EPOCH }
        ensures { result ≡ epoch_of order }
    {
        let area = order % 2;
        Epoch {
            area: area as u8,
            number: order + area,
        }
    }
}

/// The epoch to which a number of an area belongs, by its place in the order of all epochs. A host with an odd number comes to the epoch that
/// has the next one. Number 0 of the second area belongs to none.
pub fn epoch_by(area: u8, number: u64) -> Option<u64>
    requires { number ≤ LAST_SEQUENCE }
    ensures epoch { result ≡ epochs.epoch_by area number }
    ensures range { IfSome result (λ order. order ≤ LAST_EPOCH) }
{
    let own = number + number % 2;
    own.checked_sub(u64::from(area))
}

/// The newest epoch to which one of these numbers of an area belongs, by its place in the order of all epochs.
pub fn newest(area: u8, numbers: &[u64; HOSTS]) -> Option<u64>
    requires { (host : ℕ) → host < HOSTS → slice_index numbers.now host ≤ LAST_SEQUENCE }
    ensures newest { IsNewest area (slice_index numbers.now) result }
    ensures range { IfSome result (λ order. order ≤ LAST_EPOCH) }
{
    epoch_by(area, greatest(numbers))
}

fn greatest(numbers: &[u64; HOSTS]) -> u64
    ensures some { (host : ℕ) × (host < HOSTS) × (slice_index numbers.now host ≡ result) }
    ensures most { (host : ℕ) → host < HOSTS → slice_index numbers.now host ≤ result }
{
    let mut greatest = numbers[0];
    for host in 1..HOSTS {
        if greatest < numbers[host] {
            greatest = numbers[host];
        }
    }
    greatest
}
