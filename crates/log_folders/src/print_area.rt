// What is printed of one area of a disk.
ghost use Rattle.std.specs.Prelude.{◌≡◌, ◌⊎◌, ◌+◌, ◌<◌, ◌≤◌, ◌↔◌, ◌∷◌, [], ℕ, List, IsTrue, IfOk, IfErr, IfSome, OnOk};
ghost use Rattle.std.specs.Io.KnownBytes.{Appends};
ghost use Rattle.torn_block.specs.declared.layout.TheConstants.{ROW_LENGTH};
ghost use Rattle.endless_image.specs.Sizes.{size_of};
ghost use Rattle.folders.specs.Damage.{IfDevice};
ghost use Rattle.folders.specs.Reading.{FailsAmong, TellsAll};
ghost use Rattle.log_folders.specs.Areas.{AreNumbers, IsAreaText, IsDamagedIn, IsHit, IsHitBelow, IsHitIn, SaysNumbers, everybody, line_of, lines_of, damaged_in, part_place, part_text, slots_text, standings_in};
ghost use Rattle.log_folders.specs.EndlessReading.{area_reads, part_read, slot_reads};
ghost use Rattle.log_folders.specs.Steps.{Keeps, Prints};

use crate::area::{Area, Part, damaged_blocks, read_part};
use crate::inside::inside_of;
use disk::{Boot, Disk};
use folders::CheckFault;
use standings::decode_standings;
use std::io;
use std::io::Write;
use torn_block::{HOSTS, ROW_LENGTH};

/// Prints a line for each damaged block of an area: of its row of standings, and then the heartbeats and each slot of the hosts that are inside of
/// its newest epoch. With the first one `any` becomes true. Returns the numbers of the hosts, if their row is sound.
pub(crate) fn print_area<D: Disk, O: Write>(
    device: &mut D,
    boot: Boot,
    area: Area,
    out: &mut O,
    any: &mut bool,
) -> Result<Option<[u64; HOSTS]>, CheckFault>
    requires area { area.area < 2 }
    requires room { size_of area.slots ≤ (D.device device.old).size }
    ensures keeps { Keeps (D.device device.old) (D.device device.new) (D.state device.old) (D.state device.new) any.old any.new
        (IsDamagedIn area.slots area.area) }
    ensures prints { OnOk result (Prints (D.device device.old) (D.state device.old) (O.contents out.old) (O.contents out.new) any.old any.new
        (IsAreaText area) (IsDamagedIn area.slots area.area)) }
    ensures numbers { IfOk result (λ numbers. IsTrue (D.device device.old).tells →
        SaysNumbers (standings_in area.slots area.area (D.state device.old).bytes) numbers) }
    ensures range { IfOk result (λ numbers. IfSome numbers AreNumbers) }
    ensures whole { OnOk result (TellsAll D.gives (area_reads boot.number area.slots area.area) device.old device.new) }
    ensures device_fault { IfErr result (λ fault. IfDevice fault (λ cause.
        FailsAmong D.gives (area_reads boot.number area.slots area.area) device.old cause device.new)) }
{
    let row = read_part(device, boot, area, Part::Standings)?;
    let numbers = print_standings(area, &row, out)?;
    *any |= numbers.is_none();
    let inside = inside_of(area.area, &numbers);
    print_part(device, boot, area, Part::Heartbeats, &inside, out, any)?;
    print_slots(device, boot, area, &inside, out, any)?;
    Ok(numbers)
}

/// Prints a line for each damaged block of a row of standings. Returns the numbers of the hosts, if there is none.
fn print_standings<O: Write>(
    area: Area,
    row: &[u8; ROW_LENGTH],
    out: &mut O,
) -> io::Result<Option<[u64; HOSTS]>>
    ensures text { OnOk result (Appends (O.contents out.old) (O.contents out.new)
        (lines_of area Part.Standings everybody (damaged_in Part.Standings row.now))) }
    ensures numbers { IfOk result (SaysNumbers row.now) }
    ensures range { IfOk result (λ numbers. IfSome numbers AreNumbers) }
{
    let damaged = damaged_blocks(Part::Standings, row);
    print_lines(area, Part::Standings, &[true; HOSTS], &damaged, out)?;
    Ok(decode_standings(row))
}

/// Prints a line for each damaged block of the slots of hosts that are shown.
fn print_slots<D: Disk, O: Write>(
    device: &mut D,
    boot: Boot,
    area: Area,
    shown: &[bool; HOSTS],
    out: &mut O,
    any: &mut bool,
) -> Result<(), CheckFault>
    requires area { area.area < 2 }
    requires room { size_of area.slots ≤ (D.device device.old).size }
    ensures keeps { Keeps (D.device device.old) (D.device device.new) (D.state device.old) (D.state device.new) any.old any.new
        (IsHitBelow area.slots area.area shown.now area.slots) }
    ensures prints { OnOk result (Prints (D.device device.old) (D.state device.old) (O.contents out.old) (O.contents out.new) any.old any.new
        (λ bytes text. text ≡ slots_text area shown.now area.slots bytes) (IsHitBelow area.slots area.area shown.now area.slots)) }
    ensures whole { OnOk result (TellsAll D.gives (slot_reads boot.number area.slots area.area 0 area.slots) device.old device.new) }
    ensures device_fault { IfErr result (λ fault. IfDevice fault (λ cause.
        FailsAmong D.gives (slot_reads boot.number area.slots area.area 0 area.slots) device.old cause device.new)) }
{
    for slot in 0..u32::from(area.slots) {
        print_part(device, boot, area, Part::Slot(slot), shown, out, any)?;
    }
    Ok(())
}

/// Prints a line for each damaged block of a part of hosts that are shown.
fn print_part<D: Disk, O: Write>(
    device: &mut D,
    boot: Boot,
    area: Area,
    part: Part,
    shown: &[bool; HOSTS],
    out: &mut O,
    any: &mut bool,
) -> Result<(), CheckFault>
    requires { part_place area.slots area.area part + ROW_LENGTH ≤ (D.device device.old).size }
    ensures keeps { Keeps (D.device device.old) (D.device device.new) (D.state device.old) (D.state device.new) any.old any.new
        (IsHitIn area.slots area.area part shown.now) }
    ensures prints { OnOk result (Prints (D.device device.old) (D.state device.old) (O.contents out.old) (O.contents out.new) any.old any.new
        (λ bytes text. text ≡ part_text area part shown.now bytes) (IsHitIn area.slots area.area part shown.now)) }
    ensures whole { OnOk result (TellsAll D.gives (part_read boot.number area.slots area.area part ∷ []) device.old device.new) }
    ensures device_fault { IfErr result (λ fault. IfDevice fault (λ cause.
        FailsAmong D.gives (part_read boot.number area.slots area.area part ∷ []) device.old cause device.new)) }
{
    let row = read_part(device, boot, area, part)?;
    let damaged = damaged_blocks(part, &row);
    let found = print_lines(area, part, shown, &damaged, out)?;
    *any |= found;
    Ok(())
}

/// Prints a line for each host that is shown and whose block is damaged. Returns whether there is one.
fn print_lines<O: Write>(
    area: Area,
    part: Part,
    shown: &[bool; HOSTS],
    damaged: &[bool; HOSTS],
    out: &mut O,
) -> io::Result<bool>
    ensures text { OnOk result (Appends (O.contents out.old) (O.contents out.new) (lines_of area part shown.now damaged.now)) }
    ensures found { IfOk result (λ found. IsTrue found ↔ IsHit shown.now damaged.now) }
{
    let mut found = false;
    for host in 0..HOSTS {
        if shown[host] && damaged[host] {
            print_line(area, part, host, out)?;
            found = true;
        }
    }
    Ok(found)
}

fn print_line<O: Write>(area: Area, part: Part, host: usize, out: &mut O) -> io::Result<()>
    ensures { OnOk result (Appends (O.contents out.old) (O.contents out.new) (line_of area part host)) }
{
    let Area { disk, area, .. } = area;
    match part {
        Part::Standings => writeln!(out, "disk{disk} area {area} standing host {host} damaged"),
        Part::Heartbeats => writeln!(out, "disk{disk} area {area} heartbeat host {host} damaged"),
        Part::Slot(slot) => {
            writeln!(
                out,
                "disk{disk} area {area} slot {slot} host {host} damaged"
            )
        }
    }
}
