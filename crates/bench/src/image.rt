ghost use Rattle.std.specs.Prelude.{◌≡◌, length};
ghost use Rattle.torn_block.specs.Layout.{cluster_version};
ghost use Rattle.torn_block.specs.declared.layout.TheConstants.{SLOTS};
ghost use Rattle.paxos_block.specs.Places;
ghost use Rattle.attempt.specs.History.{Fits};
ghost use Rattle.attempt.specs.DeviceCalls.{IsWithin, device_call_of, heard_of};

use crate::bench_failure::BenchFailure;
use attempt::{DeviceCall, Heard, answer_of};
use disk::{Disk, DiskFault, SimDisk};
use paxos_block::{image_length, row_place};
use std::alloc::Global;
use torn_block::{ClusterLayout, ROW_LENGTH, SLOTS};

/// A simulated disk with rows for all slots.
#[derive(Drop)]
pub struct Image {
    disk: SimDisk,
    ghost whole: { length disk.disk.bytes ≡ Places.image_length cluster_version SLOTS },
}

impl Image {
    /// All rows are blank, and each has its room: a simulated disk gives it that at the first write, which plain code does beforehand.
    pub fn new(alloc: Global) -> Result<Image, BenchFailure> {
        let mut disk = SimDisk::new(alloc, image_length::<ClusterLayout>(SLOTS))?;
        give_rooms(&mut disk)?;
        Ok(Image { disk })
    }

    /// Makes the call. A read goes to `row`.
    pub fn answer<'a>(&mut self, call: &DeviceCall<'_>, row: &'a mut [u8; ROW_LENGTH]) -> Heard<'a>
        requires { IsWithin cluster_version (Places.image_length cluster_version SLOTS) call.now }
        ensures { Fits (device_call_of cluster_version call.now) (heard_of cluster_version result) }
    {
        answer_of::<ClusterLayout, _>(&mut self.disk, call, row)
    }
}

fn give_rooms(disk: &mut SimDisk) -> Result<(), DiskFault>
    requires { length disk.old.disk.bytes ≡ Places.image_length cluster_version SLOTS }
    ensures { length disk.new.disk.bytes ≡ Places.image_length cluster_version SLOTS }
{
    let boot = disk.attach()?;
    for slot in 0..SLOTS {
        disk.write(boot, row_place::<ClusterLayout>(slot), &[0])?;
    }
    disk.sync(boot)
}
