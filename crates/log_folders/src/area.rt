ghost use Rattle.std.specs.Prelude.{◌≡◌, ◌+◌, ◌<◌, ◌≤◌, ◌↔◌, ℕ, false, IsTrue, IfOk, IfErr, OnOk, slice_index_or};
ghost use Rattle.disk.specs.Disk.{Fault};
ghost use Rattle.folders.specs.Reading.{Tells};
ghost use Rattle.log_folders.specs.Areas.{IsDamagedAt, damaged_in, part_in, part_place};
ghost use Rattle.log_folders.specs.EndlessReading.{part_read};

use disk::{Boot, Disk, DiskFault};
use heartbeat::damaged_beats;
use paxos_block::{AREA_PLACE, damaged_hosts, row_place};
use standings::{area_base, standings_place};
use torn_block::{ClusterLayout, HOSTS, ROW_LENGTH};

/// An area of a disk of a log without an end.
#[derive(Clone, Copy, Debug, PartialEq, Eq)]
pub struct Area {
    pub disk: u8,
    /// The slots of an epoch.
    pub slots: u16,
    /// 0 or 1.
    pub area: u8,
}

/// The parts of an area: in each of them every host has a block.
#[derive(Clone, Copy, Debug, PartialEq, Eq)]
pub enum Part {
    Standings,
    Heartbeats,
    /// A slot, counted in the area.
    Slot(u32),
}

/// Where a part begins, in bytes from the start of the disk.
fn place_of(area: Area, part: Part) -> u64
    ensures { result ≡ part_place area.slots area.area part }
{
    match part {
        Part::Standings => standings_place(area.slots, area.area),
        Part::Heartbeats => area_base(area.slots, area.area) + AREA_PLACE,
        Part::Slot(slot) => { area_base(area.slots, area.area) + row_place::<ClusterLayout>(slot) }
    }
}

/// The bytes of a part.
pub(crate) fn read_part<D: Disk>(
    device: &mut D,
    boot: Boot,
    area: Area,
    part: Part,
) -> Result<[u8; ROW_LENGTH], DiskFault>
    requires { part_place area.slots area.area part + ROW_LENGTH ≤ (D.device device.old).size }
    ensures device { D.device device.new ≡ D.device device.old }
    ensures unchanged { IsTrue (D.device device.old).tells → D.state device.new ≡ D.state device.old }
    ensures row { IfOk result (λ row. IsTrue (D.device device.old).tells →
        row ≡ part_in area.slots area.area part (D.state device.old).bytes) }
    ensures read { OnOk result (Tells D.gives (part_read boot.number area.slots area.area part) device.old device.new) }
    ensures device_fault { IfErr result (λ fault.
        D.gives device.old (part_read boot.number area.slots area.area part) (Fault fault) device.new) }
{
    let mut row = [0; ROW_LENGTH];
    device.read(boot, place_of(area, part), &mut row)?;
    Ok(row)
}

/// By host, whether its block in the bytes of a part is damaged.
pub(crate) fn damaged_blocks(part: Part, row: &[u8; ROW_LENGTH]) -> [bool; HOSTS]
    ensures each { (host : ℕ) → host < HOSTS → IsTrue (slice_index_or result host false) ↔ IsDamagedAt part host row.now }
    ensures exact { result ≡ damaged_in part row.now }
{
    match part {
        Part::Standings | Part::Heartbeats => damaged_beats(row),
        Part::Slot(_) => damaged_hosts(row),
    }
}
