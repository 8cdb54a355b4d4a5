ghost use Rattle.std.specs.Prelude.{◌≡◌, ◌⊎◌, ◌+◌, ◌≤◌, ◌<◌, ◌↔◌, ℕ, true, IsTrue, Contains, List, None, Err, IfOk, IfErr, OnOk, length, map};
ghost use Rattle.std.specs.List.{list_any};
ghost use Rattle.std.specs.Io.KnownBytes.{Appends};
ghost use Rattle.disk.specs.Disk.{Fault};
ghost use Rattle.disk.specs.FileStates.{FileGives};
ghost use Rattle.torn_block.specs.Layout.{cluster_version};
ghost use Rattle.torn_block.specs.declared.layout.TheConstants.{DISKS};
ghost use Rattle.paxos_block.specs.Places.{area_of, row_of, image_length};
ghost use Rattle.paxos_block.specs.Row.{IsDamagedRow};
ghost use Rattle.paxos_block.specs.Damage as rows;
ghost use Rattle.heartbeat.specs.Beat.{IsDamagedArea};
ghost use Rattle.heartbeat.specs.Damage as areas;
ghost use Rattle.folders.specs.declared.check.CheckFault.TheVariants.{Device, Output};
ghost use Rattle.folders.specs.Damage.{IfDevice, AreLarge, IsDamagedImage, IsDamagedBelow, PrintsNothing, IsLeftInRows, IsLeftAt, IsTextOfUsed, AllTell, WritesTextOf, WritesTexts, FailsIfUnread, Shows, TellsOf, IsToldFirst, IsToldOfFolder, line_of, lines_of, fault_line, image_text, area_text, row_text, rows_text};
ghost use Rattle.folders.specs.Reading.{area_read, row_read, row_reads, Tells, FailsAmong, FailsToShow, CannotBeRead, OneCannotBeRead, TellsAll, IsReadWhole, AreReadIfSound};

use crate::folder::Folder;
use crate::image_fault::{image_fault_name, image_fault_number};
use disk::{Boot, Disk, DiskFault, ImageFault};
use heartbeat::damaged_beats;
use paxos_block::{AREA_PLACE, Header, damaged_hosts, row_place};
use std::fs::OpenFile;
use std::io;
use std::io::Write;
use std::os::unix::fs::FileExt;
use thiserror::Error;
use torn_block::{ClusterLayout, DISKS, HOSTS, ROW_LENGTH};

/// What is wrong with an image.
#[derive(Clone, Copy, Debug, PartialEq, Eq)]
pub enum Finding {
    /// It is missing or refused, or could not be read to its end.
    Image { disk: u8, fault: ImageFault },
    /// A block of it is damaged.
    Damaged,
}

/// Where the blocks of all hosts stand side by side.
#[derive(Clone, Copy, Debug, PartialEq, Eq)]
pub enum Blocks {
    Heartbeat,
    Slot(u32),
}

/// Why an image was not looked at to its end.
#[derive(Debug, Drop, Error)]
pub enum CheckFault {
    #[error("the image cannot be read")]
    Device(DiskFault),
    #[error("output failed")]
    Output(io::Error),
}

impl From<DiskFault> for CheckFault {
    ghost from_gives = { λ of fault. fault ≡ Device of };

    fn from(fault: DiskFault) -> Self {
        CheckFault::Device(fault)
    }
}

impl From<io::Error> for CheckFault {
    ghost from_gives = { λ of fault. fault ≡ Output of };

    fn from(error: io::Error) -> Self {
        CheckFault::Output(error)
    }
}

/// Prints what is wrong with the images of a folder, and tells what it found first. It writes to no image.
pub fn check_folder<F: FileExt + OpenFile + Drop, O: Write>(
    folder: &mut Folder<F>,
    out: &mut O,
) -> io::Result<Option<Finding>>
    ensures told { IfOk result (IsToldOfFolder folder.old.found folder.old.config.disks) }
    // That an image cannot be read is told only where a call of its disk failed, and nothing only where none did.
    ensures unread { IfOk result (FailsIfUnread FileGives folder.old.config.slots folder.old.found folder.old.disks.items folder.new.disks.items) }
    ensures whole { IfOk result (AreReadIfSound FileGives folder.old.config.slots folder.old.disks.items folder.new.disks.items folder.old.config.disks) }
{
    let slots = u32::from(folder.config.slots());
    check_disks(&mut folder.disks, &folder.found, slots, out)
}

/// For each disk, prints why it is not used, or a line for each damaged block. If a disk cannot be read to its end, one more line
/// says so. Returns what was found first.
fn check_disks<D: Disk, O: Write>(
    disks: &mut [D],
    found: &[Result<Header, ImageFault>; DISKS as usize],
    slots: u32,
    out: &mut O,
) -> io::Result<Option<Finding>>
    requires few { length disks.old ≤ DISKS }
    requires large { AreLarge D.device slots disks.old }
    ensures unchanged { OnOk result (AllTell D.device disks.old → map D.state disks.new ≡ map D.state disks.old) }
    // One text for each image, in their order.
    ensures texts { OnOk result (AllTell D.device disks.old →
        WritesTexts D.state slots found.now disks.old (OneCannotBeRead D.gives slots disks.old disks.new) (length disks.old)
        (O.contents out.old) (O.contents out.new)) }
    ensures told { IfOk result (IsToldFirst D.device D.state slots found.now disks.old
        (OneCannotBeRead D.gives slots disks.old disks.new) (length disks.old)) }
    // What this says of images that were refused, by what was found of each image alone.
    ensures refusals { IfOk result (IsToldOfFolder found.now (length disks.old)) }
    ensures unread { IfOk result (FailsIfUnread D.gives slots found.now disks.old disks.new) }
    ensures whole { IfOk result (AreReadIfSound D.gives slots disks.old disks.new (length disks.old)) }
    ensures devices { map D.device disks.new ≡ map D.device disks.old }
{
    let mut first = None;
    for disk in 0..disks.len() {
        let finding = check_image(&mut disks[disk], &found[disk], disk as u8, slots, out)?;
        first = first.or(finding);
    }
    Ok(first)
}

/// Prints why an image is not used, or a line for each damaged block of it, and tells which of both.
fn check_image<D: Disk, O: Write>(
    device: &mut D,
    found: &Result<Header, ImageFault>,
    disk: u8,
    slots: u32,
    out: &mut O,
) -> io::Result<Option<Finding>>
    requires { image_length cluster_version slots ≤ (D.device device.old).size }
    ensures device { D.device device.new ≡ D.device device.old }
    ensures unchanged { IsTrue (D.device device.old).tells → D.state device.new ≡ D.state device.old }
    ensures text { OnOk result (IsTrue (D.device device.old).tells →
        WritesTextOf found.now disk slots (D.state device.old).bytes (CannotBeRead D.gives slots device.old device.new)
        (O.contents out.old) (O.contents out.new)) }
    ensures told { IfOk result (TellsOf found.now disk (IsTrue (D.device device.old).tells) (IsDamagedImage slots (D.state device.old).bytes)
        (CannotBeRead D.gives slots device.old device.new)) }
    ensures line { OnOk result ((fault : ImageFault) → found.now ≡ Err fault → Appends (O.contents out.old) (O.contents out.new) (fault_line disk fault)) }
    ensures whole { IfOk result (λ finding. finding ≡ None → IsReadWhole D.gives slots device.old device.new) }
{
    match found {
        Ok(_) => check_disk(device, disk, slots, out),
        Err(fault) => Ok(Some(print_fault(disk, *fault, out)?)),
    }
}

fn check_disk<D: Disk, O: Write>(
    device: &mut D,
    disk: u8,
    slots: u32,
    out: &mut O,
) -> io::Result<Option<Finding>>
    requires { image_length cluster_version slots ≤ (D.device device.old).size }
    ensures device { D.device device.new ≡ D.device device.old }
    ensures unchanged { IsTrue (D.device device.old).tells → D.state device.new ≡ D.state device.old }
    ensures text { OnOk result (IsTrue (D.device device.old).tells →
        (text : List ℕ) × IsTextOfUsed disk slots (D.state device.old).bytes (CannotBeRead D.gives slots device.old device.new) text ×
        Appends (O.contents out.old) (O.contents out.new) text) }
    ensures told { IfOk result (Shows disk (IsTrue (D.device device.old).tells) (IsDamagedImage slots (D.state device.old).bytes)
        (CannotBeRead D.gives slots device.old device.new)) }
    ensures whole { IfOk result (λ finding. finding ≡ None → IsReadWhole D.gives slots device.old device.new) }
{
    let mut any = false;
    let unread = match print_damage(device, disk, slots, out, &mut any) {
        Ok(()) => None,
        Err(CheckFault::Device(_)) => Some(print_fault(disk, ImageFault::Unreadable, out)?),
        Err(CheckFault::Output(error)) => return Err(error),
    };
    Ok(if any { Some(Finding::Damaged) } else { unread })
}

/// Prints a line for each damaged block of an image, first for the heartbeats by host, then for each slot by host. With the first
/// one `any` becomes true, also where the image cannot be read to its end.
pub fn print_damage<D: Disk, O: Write>(
    device: &mut D,
    disk: u8,
    slots: u32,
    out: &mut O,
    any: &mut bool,
) -> Result<(), CheckFault>
    requires { image_length cluster_version slots ≤ (D.device device.old).size }
    ensures device { D.device device.new ≡ D.device device.old }
    ensures unchanged { IsTrue (D.device device.old).tells → D.state device.new ≡ D.state device.old }
    ensures text { OnOk result (IsTrue (D.device device.old).tells →
        Appends (O.contents out.old) (O.contents out.new) (image_text disk slots (D.state device.old).bytes)) }
    ensures found { OnOk result (IsTrue (D.device device.old).tells →
        IsTrue any.new ↔ (IsTrue any.old ⊎ IsDamagedImage slots (D.state device.old).bytes)) }
    // Also where it is not read to its end.
    ensures cause { IsTrue (D.device device.old).tells → IsTrue any.new → IsTrue any.old ⊎ IsDamagedImage slots (D.state device.old).bytes }
    ensures left { IfErr result (λ fault. IsTrue (D.device device.old).tells →
        IsLeftAt fault disk slots (D.state device.old).bytes (O.contents out.old) (O.contents out.new) any.old any.new) }
    ensures device_fault { IfErr result (λ fault. IfDevice fault (λ cause. FailsToShow D.gives slots device.old cause device.new)) }
    ensures whole { OnOk result (IsReadWhole D.gives slots device.old device.new) }
{
    let boot = device.attach()?;
    let beats = print_area(device, boot, disk, out)?;
    *any |= beats;
    print_rows(device, boot, disk, slots, out, any)?;
    Ok(())
}

/// Prints a line for each damaged heartbeat block.
fn print_area<D: Disk, O: Write>(
    device: &mut D,
    boot: Boot,
    disk: u8,
    out: &mut O,
) -> Result<bool, CheckFault>
    requires { image_length cluster_version 0 ≤ (D.device device.old).size }
    ensures device { D.device device.new ≡ D.device device.old }
    ensures unchanged { IsTrue (D.device device.old).tells → D.state device.new ≡ D.state device.old }
    ensures text { OnOk result (IsTrue (D.device device.old).tells →
        Appends (O.contents out.old) (O.contents out.new) (area_text disk (D.state device.old).bytes)) }
    ensures found { IfOk result (λ found. IsTrue (D.device device.old).tells →
        IsTrue found ↔ IsDamagedArea (area_of cluster_version (D.state device.old).bytes)) }
    ensures left { IfErr result (λ fault. PrintsNothing fault (O.contents out.old) (O.contents out.new)) }
    ensures read { OnOk result (Tells D.gives (area_read boot.number) device.old device.new) }
    ensures device_fault { IfErr result (λ fault. IfDevice fault (λ cause.
        D.gives device.old (area_read boot.number) (Fault cause) device.new)) }
{
    let damaged = damage_of_area(device, boot)?;
    print_lines(disk, Blocks::Heartbeat, &damaged, out)?;
    Ok(has_damage(&damaged))
}

/// Prints a line for each damaged block of the slots. With the first one `any` becomes true.
fn print_rows<D: Disk, O: Write>(
    device: &mut D,
    boot: Boot,
    disk: u8,
    slots: u32,
    out: &mut O,
    any: &mut bool,
) -> Result<(), CheckFault>
    requires { image_length cluster_version slots ≤ (D.device device.old).size }
    ensures device { D.device device.new ≡ D.device device.old }
    ensures unchanged { IsTrue (D.device device.old).tells → D.state device.new ≡ D.state device.old }
    ensures text { OnOk result (IsTrue (D.device device.old).tells →
        Appends (O.contents out.old) (O.contents out.new) (rows_text disk slots (D.state device.old).bytes)) }
    ensures found { OnOk result (IsTrue (D.device device.old).tells →
        IsTrue any.new ↔ (IsTrue any.old ⊎ IsDamagedBelow slots (D.state device.old).bytes)) }
    ensures cause { IsTrue (D.device device.old).tells → IsTrue any.new → IsTrue any.old ⊎ IsDamagedBelow slots (D.state device.old).bytes }
    ensures left { IfErr result (λ fault. IsTrue (D.device device.old).tells →
        IsLeftInRows fault disk slots (D.state device.old).bytes (O.contents out.old) (O.contents out.new) any.old any.new) }
    ensures device_fault { IfErr result (λ fault. IfDevice fault (λ cause.
        FailsAmong D.gives (row_reads boot.number slots) device.old cause device.new)) }
    ensures whole { OnOk result (TellsAll D.gives (row_reads boot.number slots) device.old device.new) }
{
    for slot in 0..slots {
        let damaged = print_row(device, boot, disk, slot, out)?;
        *any |= damaged;
    }
    Ok(())
}

/// Prints a line for each damaged block of a slot.
fn print_row<D: Disk, O: Write>(
    device: &mut D,
    boot: Boot,
    disk: u8,
    slot: u32,
    out: &mut O,
) -> Result<bool, CheckFault>
    requires { image_length cluster_version (slot + 1) ≤ (D.device device.old).size }
    ensures device { D.device device.new ≡ D.device device.old }
    ensures unchanged { IsTrue (D.device device.old).tells → D.state device.new ≡ D.state device.old }
    ensures text { OnOk result (IsTrue (D.device device.old).tells →
        Appends (O.contents out.old) (O.contents out.new) (row_text disk (D.state device.old).bytes slot)) }
    ensures found { IfOk result (λ found. IsTrue (D.device device.old).tells →
        IsTrue found ↔
        IsDamagedRow cluster_version (row_of cluster_version slot (D.state device.old).bytes)) }
    ensures left { IfErr result (λ fault. PrintsNothing fault (O.contents out.old) (O.contents out.new)) }
    ensures read { OnOk result (Tells D.gives (row_read boot.number slot) device.old device.new) }
    ensures device_fault { IfErr result (λ fault. IfDevice fault (λ cause.
        D.gives device.old (row_read boot.number slot) (Fault cause) device.new)) }
{
    let damaged = damage_of_row(device, boot, slot)?;
    print_lines(disk, Blocks::Slot(slot), &damaged, out)?;
    Ok(has_damage(&damaged))
}

/// Which heartbeat blocks of an image are damaged.
fn damage_of_area<D: Disk>(device: &mut D, boot: Boot) -> Result<[bool; HOSTS], DiskFault>
    requires { image_length cluster_version 0 ≤ (D.device device.old).size }
    ensures device { D.device device.new ≡ D.device device.old }
    ensures unchanged { IsTrue (D.device device.old).tells → D.state device.new ≡ D.state device.old }
    ensures damaged { IfOk result (λ damaged. IsTrue (D.device device.old).tells →
        damaged ≡ areas.damaged_in (area_of cluster_version (D.state device.old).bytes)) }
    ensures some { IfOk result (λ damaged. IsTrue (D.device device.old).tells →
        Contains damaged true ↔
        IsDamagedArea (area_of cluster_version (D.state device.old).bytes)) }
    ensures read { OnOk result (Tells D.gives (area_read boot.number) device.old device.new) }
    ensures device_fault { IfErr result (λ fault. D.gives device.old (area_read boot.number) (Fault fault) device.new) }
{
    let mut area = [0; ROW_LENGTH];
    device.read(boot, AREA_PLACE, &mut area)?;
    Ok(damaged_beats(&area))
}

/// Which blocks of a slot are damaged in an image.
fn damage_of_row<D: Disk>(device: &mut D, boot: Boot, slot: u32) -> Result<[bool; HOSTS], DiskFault>
    requires { image_length cluster_version (slot + 1) ≤ (D.device device.old).size }
    ensures device { D.device device.new ≡ D.device device.old }
    ensures unchanged { IsTrue (D.device device.old).tells → D.state device.new ≡ D.state device.old }
    ensures damaged { IfOk result (λ damaged. IsTrue (D.device device.old).tells →
        damaged ≡ rows.damaged_in (row_of cluster_version slot (D.state device.old).bytes)) }
    ensures some { IfOk result (λ damaged. IsTrue (D.device device.old).tells →
        Contains damaged true ↔
        IsDamagedRow cluster_version (row_of cluster_version slot (D.state device.old).bytes)) }
    ensures read { OnOk result (Tells D.gives (row_read boot.number slot) device.old device.new) }
    ensures device_fault { IfErr result (λ fault. D.gives device.old (row_read boot.number slot) (Fault fault) device.new) }
{
    let mut row = [0; ROW_LENGTH];
    device.read(boot, row_place::<ClusterLayout>(slot), &mut row)?;
    Ok(damaged_hosts(&row))
}

/// Whether one of these blocks is damaged.
fn has_damage(damaged: &[bool; HOSTS]) -> bool
    ensures { result ≡ list_any (λ is. is) damaged.now }
{
    damaged.iter().any(|&is| is)
}

/// Prints a line for each of these blocks that is damaged, by its host.
fn print_lines<O: Write>(
    disk: u8,
    blocks: Blocks,
    damaged: &[bool; HOSTS],
    out: &mut O,
) -> io::Result<()>
    ensures { OnOk result (
        Appends (O.contents out.old) (O.contents out.new) (lines_of disk blocks damaged.now)) }
{
    for host in 0..HOSTS {
        if damaged[host] {
            print_line(disk, blocks, host, out)?;
        }
    }
    Ok(())
}

fn print_line<O: Write>(disk: u8, blocks: Blocks, host: usize, out: &mut O) -> io::Result<()>
    ensures { OnOk result (Appends (O.contents out.old) (O.contents out.new) (line_of disk blocks host)) }
{
    match blocks {
        Blocks::Heartbeat => writeln!(out, "disk{disk} heartbeat host {host} damaged"),
        Blocks::Slot(slot) => writeln!(out, "disk{disk} slot {slot} host {host} damaged"),
    }
}

/// Prints why an image is not used.
fn print_fault<O: Write>(disk: u8, fault: ImageFault, out: &mut O) -> io::Result<Finding>
    ensures finding { IfOk result (λ finding. finding ≡ Finding.Image disk fault) }
    ensures text { OnOk result (Appends (O.contents out.old) (O.contents out.new) (fault_line disk fault)) }
{
    let number = image_fault_number(fault);
    let name = image_fault_name(fault);
    writeln!(out, "disk{disk} {number} {name}")?;
    Ok(Finding::Image { disk, fault })
}
