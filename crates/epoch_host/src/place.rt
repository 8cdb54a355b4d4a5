ghost use Rattle.std.specs.Prelude.{◌≡◌, ◌≤◌, ◌<◌, ◌+◌, ◌-◌, ◌*◌};
ghost use Rattle.std.specs.Option.{SomeIff};

use paxos_block::Config;

/// There are at most so many epochs, so that each place has its 64 bits.
pub const EPOCHS: u64 = 1 << 50;

/// The place of a slot of an epoch in the order of all slots of all epochs. The slot may be the first of the next epoch.
pub fn place_of(config: Config, epoch: u64, slot: u16) -> u64
    requires { epoch ≤ EPOCHS }
    ensures { result ≡ epoch * config.slots + slot }
{
    epoch * u64::from(config.slots()) + u64::from(slot)
}

/// The slot of an epoch that is at a place, if the place is in the epoch.
pub fn slot_in(config: Config, epoch: u64, place: u64) -> Option<u16>
    requires { epoch ≤ EPOCHS }
    ensures { SomeIff result ((epoch * config.slots ≤ place) × (place < epoch * config.slots + config.slots)) (place - epoch * config.slots) }
{
    let slot = place.checked_sub(place_of(config, epoch, 0))?;
    if slot < u64::from(config.slots()) {
        Some(slot as u16)
    } else {
        None
    }
}
