ghost use Rattle.std.specs.Prelude.{◌≡◌, ◌==◌, ◌↔◌, IsTrue, IfOk, IfNone, Ok, Err, Some, length};
ghost use Rattle.std.specs.List.{list_all};
ghost use Rattle.endless_image.specs.Headers.{IsAmong, IsEndlessHeader, IsRight, IsFirst, header_saying, header_in};
ghost use Rattle.endless_image.specs.Sizes.{IsSlotCount};

use crate::fault::HeaderFault;
use crate::number::{NUMBER_LENGTH, SHORT_LENGTH, number_in, put_short, put_zeros, short_in};
use crate::size::{LEAST_SLOTS, image_size};
use standings::LAST_EPOCH;
use torn_block::{DISKS, HEADER_LENGTH, OPEN_GATE, SLOTS, put_number};

/// The version of such an image, where one of a log that ends has the number of its layout.
pub const ENDLESS_VERSION: u8 = 4;

// Where the fields are, and the zeros after them.
const GATE_AT: usize = 0;

pub(crate) const VERSION_AT: usize = 1;

const DISK_AT: usize = 2;

const DISKS_AT: usize = 3;

pub(crate) const SLOTS_AT: usize = 4;

const CLUSTER_AT: usize = SLOTS_AT + SHORT_LENGTH;

const EPOCH_AT: usize = CLUSTER_AT + NUMBER_LENGTH;

pub(crate) const MARK_AT: usize = EPOCH_AT + NUMBER_LENGTH;

const REST_AT: usize = MARK_AT + 1;

/// What an image says of itself.
#[derive(Clone, Copy, Debug, PartialEq, Eq)]
pub struct EndlessHeader {
    /// The number of this disk among those of its set, from 0.
    pub disk: u8,
    /// How many disks the set has, 1 to 7.
    pub disks: u8,
    /// How many slots an epoch has, 320 to 4096.
    pub slots: u32,
    /// Any number; all images of a set have the same.
    pub cluster: u64,
    /// In epochs before this one the disk takes no part, as if it were lost. It is 0 but for a disk that took another one's place.
    pub first_epoch: u64,
}

/// Whether an image may have this header. Any cluster number will do.
pub fn is_endless_header(header: &EndlessHeader) -> bool
    ensures { IsTrue result ↔ IsEndlessHeader header.now }
{
    is_among(header.disk, header.disks)
        && is_slot_count(header.slots)
        && header.first_epoch <= LAST_EPOCH
}

fn is_among(disk: u8, disks: u8) -> bool
    ensures { IsTrue result ↔ IsAmong disk disks }
{
    disk < disks && disks <= DISKS
}

pub(crate) fn is_slot_count(slots: u32) -> bool
    ensures { IsTrue result ↔ IsSlotCount slots }
{
    LEAST_SLOTS <= slots && slots <= SLOTS
}

/// The header of an image, by the disk that it is named as, its length in bytes, and its first bytes. Hand in zeros for those that a shorter one does
/// not have.
pub fn decode_endless_header(
    disk: u8,
    long: u64,
    bytes: &[u8; HEADER_LENGTH],
) -> Result<EndlessHeader, HeaderFault>
    // What is read is right, and what is right is read.
    ensures right { IfOk result (IsRight disk long bytes.now) }
    ensures only { (header : EndlessHeader) → IsRight disk long bytes.now header → result ≡ Ok header }
    // Each refusal has its cause, and is told where no refusal before it has one.
    ensures told { (fault : HeaderFault) → (result ≡ Err fault) ↔ IsFirst disk long bytes.now fault }
{
    let header = header_in(bytes);
    match first_fault(disk, long, bytes, &header) {
        Some(fault) => Err(fault),
        None => Ok(header),
    }
}

// What is wrong with an image, by its first bytes and what their fields say.
fn first_fault(
    disk: u8,
    long: u64,
    bytes: &[u8; HEADER_LENGTH],
    header: &EndlessHeader,
) -> Option<HeaderFault>
    requires { header.now ≡ header_in bytes.now }
    ensures told { (fault : HeaderFault) → (result ≡ Some fault) ↔ IsFirst disk long bytes.now fault }
    ensures none { IfNone result (IsRight disk long bytes.now (header_in bytes.now)) }
{
    if bytes[GATE_AT] != OPEN_GATE {
        return Some(HeaderFault::NotFormatted);
    }
    if bytes[VERSION_AT] < ENDLESS_VERSION {
        return Some(HeaderFault::OlderVersion);
    }
    if bytes[VERSION_AT] > ENDLESS_VERSION {
        return Some(HeaderFault::NewerVersion);
    }
    if header.disk != disk {
        return Some(HeaderFault::WrongDisk);
    }
    if !is_among(header.disk, header.disks) {
        return Some(HeaderFault::WrongDisks);
    }
    if !is_slot_count(header.slots) {
        return Some(HeaderFault::WrongSlots);
    }
    if header.first_epoch > LAST_EPOCH {
        return Some(HeaderFault::WrongEpoch);
    }
    if bytes[MARK_AT] != 0 {
        return Some(HeaderFault::Unfinished);
    }
    if !are_zeros(&bytes[REST_AT..]) {
        return Some(HeaderFault::Damaged);
    }
    if image_size(header.slots) != long {
        return Some(HeaderFault::WrongLength);
    }
    None
}

fn are_zeros(bytes: &[u8]) -> bool
    ensures { result ≡ list_all (λ b. b == 0) bytes.now }
{
    bytes.iter().all(|&b| b == 0)
}

fn header_in(bytes: &[u8]) -> EndlessHeader
    requires { length bytes.now ≡ HEADER_LENGTH }
    ensures { result ≡ header_in bytes.now }
{
    EndlessHeader {
        disk: bytes[DISK_AT],
        disks: bytes[DISKS_AT],
        slots: short_in(&bytes[SLOTS_AT..]),
        cluster: number_in(&bytes[CLUSTER_AT..]),
        first_epoch: number_in(&bytes[EPOCH_AT..]),
    }
}

/// The first bytes of an image with this header, which has `image_size(header.slots)` bytes.
pub fn encode_endless_header(header: &EndlessHeader) -> [u8; HEADER_LENGTH]
    requires { IsEndlessHeader header.now }
    ensures { result ≡ header_saying header.now }
{
    let mut bytes = [0; HEADER_LENGTH];
    put_header(&mut bytes, header);
    bytes
}

fn put_header(bytes: &mut [u8], header: &EndlessHeader)
    requires { length bytes.old ≡ HEADER_LENGTH }
    ensures { bytes.new ≡ header_saying header.now }
{
    let (front, back) = bytes.split_at_mut(SLOTS_AT);
    let (slots, rest) = back.split_at_mut(SHORT_LENGTH);
    let (cluster, end) = rest.split_at_mut(NUMBER_LENGTH);
    let (epoch, tail) = end.split_at_mut(NUMBER_LENGTH);
    let (mark, zeros) = tail.split_at_mut(1);
    front.copy_from_slice(&[OPEN_GATE, ENDLESS_VERSION, header.disk, header.disks]);
    put_short(slots, header.slots);
    put_number(cluster, header.cluster);
    put_number(epoch, header.first_epoch);
    mark.copy_from_slice(&[0]);
    put_zeros(zeros);
}
