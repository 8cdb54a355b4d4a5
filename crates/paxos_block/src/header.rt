ghost use Rattle.std.specs.Prelude.{◌≡◌, ◌≢◌, ◌⊎◌, ◌≤◌, ◌<◌, ◌↔◌, IsTrue, length, IfOk, Err, Ok};
ghost use Rattle.paxos_block.specs.Headers;
ghost use Rattle.paxos_block.specs.Places;
ghost use Rattle.paxos_block.specs.Headers.{IsHeader, IsFormatted, IsRight, HasNoHeader, header_saying, header_in};

use crate::number::{
    NUMBER_LENGTH, SHORT_LENGTH, is_zero, number_in, put_short, put_zeros, short_in,
};
use crate::place::image_length;
use disk::ImageFault;
use torn_block::{DISKS, HEADER_LENGTH, Layout, OPEN_GATE, SLOTS, put_number};

// Where the fields stand, and the zeros behind them.
const GATE_AT: usize = 0;

const VERSION_AT: usize = 1;

const DISK_AT: usize = 2;

const DISKS_AT: usize = 3;

const SLOTS_AT: usize = 4;

const CLUSTER_AT: usize = SLOTS_AT + SHORT_LENGTH;

const ZEROS_AT: usize = CLUSTER_AT + NUMBER_LENGTH;

/// What an image says of itself.
#[derive(Clone, Copy, Debug, PartialEq, Eq)]
pub struct Header {
    /// The number of this disk among those of its set, from 0.
    pub disk: u8,
    /// How many disks the set has, 1 to 7.
    pub disks: u8,
    /// How many rows each image of the set has, 1 to 4096.
    pub slots: u32,
    /// Any number; all images of a set have the same.
    pub cluster: u64,
}

/// Whether an image may have this header. Any cluster number will do.
pub fn is_header(header: &Header) -> bool
    ensures right { IsTrue result ↔ IsHeader header.now }
    ensures test { result ≡ Headers.is_header header.now }
{
    header.disk < header.disks
        && header.disks <= DISKS
        && 1 <= header.slots
        && header.slots <= SLOTS
}

/// The header of an image, by the disk that it is named as, its length in bytes, and its first
/// bytes. Where the image is shorter than those, they are not looked at: hand in any.
pub fn decode_header<L: Layout>(
    disk: u8,
    long: u64,
    bytes: &[u8; HEADER_LENGTH],
) -> Result<Header, ImageFault>
    // What is read is right, and what is right is read.
    ensures right { IfOk result (IsRight L.version disk long bytes.now) }
    ensures only { (header : Header) → IsRight L.version disk long bytes.now header → result ≡ Ok header }
    // The length is looked at first, then the gate, and then all else.
    ensures not_formatted { (result ≡ Err ImageFault.NotFormatted) ↔
        ((HEADER_LENGTH ≤ long) × ¬ IsFormatted bytes.now) }
    ensures wrong_header { (result ≡ Err ImageFault.WrongHeader) ↔
        ((long < HEADER_LENGTH) ⊎ HasNoHeader L.version disk long bytes.now) }
    // Only a caller that reads the file can find that fault.
    ensures readable { result ≢ Err ImageFault.Unreadable }
{
    if long < HEADER_LENGTH as u64 {
        return Err(ImageFault::WrongHeader);
    }
    if bytes[GATE_AT] != OPEN_GATE {
        return Err(ImageFault::NotFormatted);
    }
    if !is_right::<L>(disk, long, bytes) {
        return Err(ImageFault::WrongHeader);
    }
    Ok(header_in(bytes))
}

/// How long an image is by its first bytes, whether they are right or not.
pub fn told_length<L: Layout>(bytes: &[u8; HEADER_LENGTH]) -> u64
    ensures { result ≡ Places.image_length L.version (header_in bytes.now).slots }
{
    image_length::<L>(header_in(bytes).slots)
}

/// Whether an image with these first bytes was formatted to the end: its gate is open.
pub fn is_formatted(bytes: &[u8; HEADER_LENGTH]) -> bool
    ensures { IsTrue result ↔ IsFormatted bytes.now }
{
    bytes[GATE_AT] == OPEN_GATE
}

fn is_right<L: Layout>(disk: u8, long: u64, bytes: &[u8]) -> bool
    requires { length bytes.now ≡ HEADER_LENGTH }
    ensures { result ≡ Headers.is_right L.version disk long bytes.now }
{
    let header = header_in(bytes);
    bytes[VERSION_AT] == L::VERSION
        && is_header(&header)
        && header.disk == disk
        && image_length::<L>(header.slots) == long
        && is_zero(&bytes[ZEROS_AT..])
}

fn header_in(bytes: &[u8]) -> Header
    requires { length bytes.now ≡ HEADER_LENGTH }
    ensures { result ≡ header_in bytes.now }
{
    Header {
        disk: bytes[DISK_AT],
        disks: bytes[DISKS_AT],
        slots: short_in(&bytes[SLOTS_AT..]),
        cluster: number_in(&bytes[CLUSTER_AT..]),
    }
}

/// The first bytes of an image with this header, which has `image_length(header.slots)` bytes.
pub fn encode_header<L: Layout>(header: &Header) -> [u8; HEADER_LENGTH]
    requires { IsHeader header.now }
    ensures { result ≡ header_saying L.version header.now }
{
    let mut bytes = [0; HEADER_LENGTH];
    put_header::<L>(&mut bytes, header);
    bytes
}

fn put_header<L: Layout>(bytes: &mut [u8], header: &Header)
    requires { length bytes.old ≡ HEADER_LENGTH }
    ensures { bytes.new ≡ header_saying L.version header.now }
{
    let (front, back) = bytes.split_at_mut(SLOTS_AT);
    let (slots, rest) = back.split_at_mut(SHORT_LENGTH);
    let (cluster, end) = rest.split_at_mut(NUMBER_LENGTH);
    front.copy_from_slice(&[OPEN_GATE, L::VERSION, header.disk, header.disks]);
    put_short(slots, header.slots);
    put_number(cluster, header.cluster);
    put_zeros(end);
}
