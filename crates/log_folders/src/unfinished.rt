ghost use Rattle.std.specs.Prelude.{◌≡◌, ◌==◌, ◌+◌, ◌≤◌, ◌<◌, replicate, true, false, IfOk, IfErr, OnErr, OnOk, length};
ghost use Rattle.std.specs.List.{list_all};
ghost use Rattle.disk.specs.Disk.{Read, Told};
ghost use Rattle.torn_block.specs.declared.layout.TheConstants.{HEADER_LENGTH};
ghost use Rattle.attempt.specs.Looking.{OnlyReads};
ghost use Rattle.folders.specs.Finishing.{AreOnlyRead, HasReadZeros, HaveSize, HoldsMore, OpensFound, OpensFoundGate, ReadsNoZeros, ReadsZeros, StopsReading};
ghost use Rattle.folders.specs.Formatting.{EndsInFault, MakesOnly};
ghost use Rattle.log_folders.specs.Finishing.{AreFinished, AreUnfinished, FindsLeft, HaveNothingLeft, StopsFinishing};
ghost use Rattle.log_folders.specs.NewSets.{header_for, size_for};

use crate::layout::CHUNK;
use crate::new_set::NewSet;
use disk::{Boot, Disk, DiskFault};
use folders::{LayFault, Left, first_bytes};
use torn_block::{HEADER_LENGTH, OPEN_GATE};

/// Opens the gates that a format left closed which was ended once all its images were whole. Whether it was so is the result: each image is whole,
/// and some gate is closed. Otherwise they are only read.
pub fn finish<D: Disk>(devices: &mut [D], set: &NewSet) -> Result<bool, LayFault>
    requires as_many { length devices.old ≡ set.now.config.disks }
    requires sizes { HaveSize D.device (size_for set.now) devices.old }
    ensures finished { IfOk result (λ finished. finished ≡ true →
        AreFinished D.gives set.now devices.old devices.new) }
    ensures refused { IfOk result (λ finished. finished ≡ false →
        HaveNothingLeft D.gives set.now devices.old devices.new) }
    ensures read { IfOk result (λ finished. finished ≡ false →
        AreOnlyRead D.gives devices.old devices.new) }
    ensures stopped { IfErr result (StopsFinishing D.gives set.now devices.old devices.new) }
{
    if !are_left(devices, set) {
        return Ok(false);
    }
    for disk in 0..set.disks() {
        open_found_gate(&mut devices[usize::from(disk)], disk)?;
    }
    Ok(true)
}

/// Whether each image is whole, and some gate is closed.
fn are_left<D: Disk>(devices: &mut [D], set: &NewSet) -> bool
    requires as_many { length devices.old ≡ set.now.config.disks }
    requires sizes { HaveSize D.device (size_for set.now) devices.old }
    ensures left { result ≡ true → AreUnfinished D.gives set.now devices.old devices.new }
    ensures none { result ≡ false → HaveNothingLeft D.gives set.now devices.old devices.new }
    ensures read { AreOnlyRead D.gives devices.old devices.new }
    ensures sizes { HaveSize D.device (size_for set.now) devices.new }
    ensures as_many { length devices.new ≡ length devices.old }
{
    let mut any = false;
    for disk in 0..set.disks() {
        match find_left(&mut devices[usize::from(disk)], set, disk) {
            Left::Open => {}
            Left::Closed => any = true,
            Left::Neither => return false,
        }
    }
    any
}

/// What is found of the image of this disk.
fn find_left<D: Disk>(device: &mut D, set: &NewSet, disk: u8) -> Left
    requires disk { disk < set.now.config.disks }
    requires size { (D.device device.old).size ≡ size_for set.now }
    ensures found { FindsLeft D.gives (size_for set.now) (header_for set.now disk) device.old device.new result }
    ensures read { MakesOnly D.gives OnlyReads device.old device.new }
    ensures device { D.device device.new ≡ D.device device.old }
{
    let size = set.image_size();
    let Ok(mut bytes) = first_bytes(device) else {
        return Left::Neither;
    };
    let gate = bytes[0];
    bytes[0] = OPEN_GATE;
    if bytes != set.first_bytes(disk) {
        return Left::Neither;
    }
    if gate == OPEN_GATE {
        return Left::Open;
    }
    match holds_nothing(device, size) {
        Ok(true) => Left::Closed,
        _ => Left::Neither,
    }
}

/// Whether all is zeros after the header.
fn holds_nothing<D: Disk>(device: &mut D, size: u64) -> Result<bool, DiskFault>
    requires header { HEADER_LENGTH ≤ size }
    requires room { size ≤ (D.device device.old).size }
    ensures zeros { IfOk result (λ nothing. nothing ≡ true →
        HasReadZeros D.gives size device.old device.new) }
    ensures more { IfOk result (λ nothing. nothing ≡ false →
        HoldsMore D.gives device.old device.new) }
    ensures failed { OnErr result (HoldsMore D.gives device.old device.new) }
    ensures read { MakesOnly D.gives OnlyReads device.old device.new }
    ensures device { D.device device.new ≡ D.device device.old }
{
    let boot = device.attach()?;
    reads_zeros(device, boot, size)
}

fn reads_zeros<D: Disk>(device: &mut D, boot: Boot, size: u64) -> Result<bool, DiskFault>
    requires header { HEADER_LENGTH ≤ size }
    requires room { size ≤ (D.device device.old).size }
    ensures zeros { IfOk result (λ nothing. nothing ≡ true →
        ReadsZeros D.gives boot.number HEADER_LENGTH size device.old device.new) }
    ensures more { IfOk result (λ nothing. nothing ≡ false →
        StopsReading D.gives boot.number device.old device.new) }
    ensures failed { OnErr result (StopsReading D.gives boot.number device.old device.new) }
    ensures read { MakesOnly D.gives OnlyReads device.old device.new }
    ensures device { D.device device.new ≡ D.device device.old }
{
    let mut at = HEADER_LENGTH as u64;
    while at < size {
        let len = (size - at).min(CHUNK as u64);
        if !reads_zeros_at(device, boot, at, len)? {
            return Ok(false);
        }
        at += len;
    }
    Ok(true)
}

/// Whether so many bytes from a place on are zeros.
fn reads_zeros_at<D: Disk>(device: &mut D, boot: Boot, at: u64, len: u64) -> Result<bool, DiskFault>
    requires few { len ≤ CHUNK }
    requires room { at + len ≤ (D.device device.old).size }
    ensures zeros { IfOk result (λ zero. zero ≡ true →
        D.gives device.old (Read boot.number at len) (Told (replicate len 0)) device.new) }
    ensures more { IfOk result (λ zero. zero ≡ false →
        ReadsNoZeros D.gives boot.number at len device.old device.new) }
    ensures failed { OnErr result (ReadsNoZeros D.gives boot.number at len device.old device.new) }
    ensures read { MakesOnly D.gives OnlyReads device.old device.new }
    ensures device { D.device device.new ≡ D.device device.old }
{
    let mut chunk = [0; CHUNK];
    let bytes = &mut chunk[..len as usize];
    device.read(boot, at, bytes)?;
    Ok(is_zero(bytes))
}

fn is_zero(bytes: &[u8]) -> bool
    ensures { result ≡ list_all (λ b. b == 0) bytes.now }
{
    bytes.iter().all(|&b| b == 0)
}

/// Opens a gate that may be open already, and makes sure of it.
fn open_found_gate<D: Disk>(device: &mut D, disk: u8) -> Result<(), LayFault>
    requires { 1 ≤ (D.device device.old).size }
    ensures opened { OnOk result (OpensFound D.gives device.old device.new) }
    ensures fault { IfErr result (λ why. why ≡ LayFault.NotOpened disk) }
    ensures failed { OnErr result (EndsInFault D.gives OpensFoundGate device.old device.new) }
    ensures device { D.device device.new ≡ D.device device.old }
{
    match put_found_gate(device) {
        Ok(()) => Ok(()),
        Err(_) => Err(LayFault::NotOpened(disk)),
    }
}

fn put_found_gate<D: Disk>(device: &mut D) -> Result<(), DiskFault>
    requires { 1 ≤ (D.device device.old).size }
    ensures opened { OnOk result (OpensFound D.gives device.old device.new) }
    ensures failed { OnErr result (EndsInFault D.gives OpensFoundGate device.old device.new) }
    ensures device { D.device device.new ≡ D.device device.old }
{
    let boot = device.attach()?;
    device.write(boot, 0, &[OPEN_GATE])?;
    device.sync(boot)
}
