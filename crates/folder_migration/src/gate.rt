ghost use Rattle.std.specs.Prelude.{◌≡◌, ◌↔◌, ◌≤◌, IsTrue, IfErr, IfOk, OnOk};
ghost use Rattle.torn_block.specs.declared.layout.TheConstants.{HEADER_LENGTH};
ghost use Rattle.folders.specs.Folders.{HasToldFirst, FailsToTell};
ghost use Rattle.folder_migration.specs.Gates.{IsOpenImage, IsClosedImage, Finds, OpensGate, FailsToOpen, SyncsGate, FailsToSync, IsLeftOpen, IsLeftUnsure};

use disk::{Disk, DiskFault};
use paxos_block::{Header, decode_header};
use torn_block::{ClusterLayout, HEADER_LENGTH, OPEN_GATE};

/// What a new image is, by its first bytes.
#[derive(Clone, Copy, Debug, PartialEq, Eq)]
pub enum Gate {
    /// Its header is the one that it should have.
    Open,
    /// So it is, but for the gate.
    Closed,
    /// It has another header, or none.
    Neither,
}

/// Whether an image of this length, with these first bytes, has this header, and whether its gate is open.
pub fn gate_in(header: &Header, long: u64, bytes: &[u8; HEADER_LENGTH]) -> Gate
    requires { HEADER_LENGTH ≤ long }
    ensures open { (result ≡ Gate.Open) ↔ IsOpenImage header.now long bytes.now }
    ensures closed { (result ≡ Gate.Closed) ↔ IsClosedImage header.now long bytes.now }
{
    let mut opened = *bytes;
    opened[0] = OPEN_GATE;
    match decode_header::<ClusterLayout>(header.disk, long, &opened) {
        Ok(found) if is_same(&found, header) => {
            if bytes[0] == OPEN_GATE {
                Gate::Open
            } else {
                Gate::Closed
            }
        }
        _ => Gate::Neither,
    }
}

fn is_same(found: &Header, header: &Header) -> bool
    ensures { IsTrue result ↔ (found.now ≡ header.now) }
{
    found == header
}

/// What is found of a device where the image with this header should be. One that does not tell its first bytes has no gate.
pub fn find_gate<D: Disk>(device: &mut D, header: &Header) -> Gate
    ensures found { Finds D.gives header.now (D.device device.old).size device.old device.new result }
    ensures room { (result ≡ Gate.Closed) → HEADER_LENGTH ≤ (D.device device.new).size }
    ensures device { D.device device.new ≡ D.device device.old }
{
    let long = device.size();
    if long < HEADER_LENGTH as u64 {
        return Gate::Neither;
    }
    match header_bytes(device) {
        Ok(bytes) => gate_in(header, long, &bytes),
        Err(_) => Gate::Neither,
    }
}

fn header_bytes<D: Disk>(device: &mut D) -> Result<[u8; HEADER_LENGTH], DiskFault>
    requires { HEADER_LENGTH ≤ (D.device device.old).size }
    ensures told { IfOk result (λ bytes. HasToldFirst D.gives device.old bytes device.new) }
    ensures fault { IfErr result (λ fault. FailsToTell D.gives HEADER_LENGTH device.old fault device.new) }
    ensures device { D.device device.new ≡ D.device device.old }
{
    let mut bytes = [0; HEADER_LENGTH];
    let boot = device.attach()?;
    device.read(boot, 0, &mut bytes)?;
    Ok(bytes)
}

/// Opens the gate of an image, and makes sure of it.
pub fn open_gate<D: Disk>(device: &mut D) -> Result<(), DiskFault>
    requires { 1 ≤ (D.device device.old).size }
    ensures opened { OnOk result (OpensGate D.gives device.old device.new) }
    ensures fault { IfErr result (λ fault. FailsToOpen D.gives device.old fault device.new) }
    ensures device { D.device device.new ≡ D.device device.old }
{
    let boot = device.attach()?;
    device.write(boot, 0, &[OPEN_GATE])?;
    device.sync(boot)
}

/// Makes sure of a gate that is open: a run that was ended may have written it, and not synced it.
pub fn sync_gate<D: Disk>(device: &mut D) -> Result<(), DiskFault>
    ensures synced { OnOk result (SyncsGate D.gives device.old device.new) }
    ensures fault { IfErr result (λ fault. FailsToSync D.gives device.old fault device.new) }
    ensures device { D.device device.new ≡ D.device device.old }
{
    let boot = device.attach()?;
    device.sync(boot)
}

/// Opens the gate of an image that is complete but for it, and makes sure of one that is open. Anything else is left as it is.
pub fn leave_open<D: Disk>(device: &mut D, header: &Header) -> Result<(), DiskFault>
    ensures left { OnOk result (IsLeftOpen D.gives header.now (D.device device.old).size device.old device.new) }
    ensures fault { IfErr result (λ fault. IsLeftUnsure D.gives header.now (D.device device.old).size device.old fault device.new) }
    ensures device { D.device device.new ≡ D.device device.old }
{
    match find_gate(device, header) {
        Gate::Closed => open_gate(device),
        Gate::Open => sync_gate(device),
        Gate::Neither => Ok(()),
    }
}
