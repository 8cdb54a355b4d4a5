ghost use Rattle.std.specs.Prelude.{◌≡◌, ◌≢◌, ◌<◌, ◌≤◌, ◌⊎◌, ◌↔◌, ℕ, IsTrue, IfOk, Ok, Err};
ghost use Rattle.torn_block.specs.declared.layout.TheConstants.{HEADER_LENGTH};
ghost use Rattle.paxos_block.specs.Headers.{IsFormatted};
ghost use Rattle.paxos_block.specs.declared.header.Header.{Header as Said};
ghost use Rattle.endless_image.specs.declared.any_header.AnyHeader.{AnyHeader};
ghost use Rattle.endless_image.specs.Kinds.{AreOneSet, HasNoHeader, IsRightBy, IsSameEnding};

use crate::header::{ENDLESS_VERSION, EndlessHeader, VERSION_AT, decode_endless_header};
use crate::set::check_set;
use crate::size::told_size;
use disk::ImageFault;
use paxos_block::{Header, decode_header, told_length};
use torn_block::{ClusterLayout, HEADER_LENGTH};

/// What an image says of itself that may be of a log that ends, or of one without an end.
#[derive(Clone, Copy, Debug, PartialEq, Eq)]
pub enum AnyHeader {
    Ending(Header),
    Endless(EndlessHeader),
}

/// The header of an image of either kind, by the disk that it is named as, its length in bytes, and its first bytes. Hand in zeros for those that a
/// shorter one does not have.
pub fn decode_any_header(
    disk: u8,
    long: u64,
    bytes: &[u8; HEADER_LENGTH],
) -> Result<AnyHeader, ImageFault>
    // What is read is right, and what is right is read.
    ensures right { IfOk result (IsRightBy disk long bytes.now) }
    ensures only { (header : AnyHeader) → IsRightBy disk long bytes.now header → result ≡ Ok header }
    ensures not_formatted { (result ≡ Err ImageFault.NotFormatted) ↔
        ((HEADER_LENGTH ≤ long) × ¬ IsFormatted bytes.now) }
    ensures wrong_header { (result ≡ Err ImageFault.WrongHeader) ↔
        ((long < HEADER_LENGTH) ⊎ HasNoHeader disk long bytes.now) }
    ensures readable { result ≢ Err ImageFault.Unreadable }
{
    if let Ok(header) = decode_endless_header(disk, long, bytes) {
        return Ok(AnyHeader::Endless(header));
    }
    match decode_header::<ClusterLayout>(disk, long, bytes) {
        Ok(header) => Ok(AnyHeader::Ending(header)),
        Err(fault) => Err(fault),
    }
}

/// How long an image of either kind is by its first bytes, which may be wrong otherwise: a block device has no length of its own.
pub fn told_any_length(bytes: &[u8; HEADER_LENGTH]) -> u64
    ensures { (disk long : ℕ) (header : AnyHeader) → IsRightBy disk long bytes.now header → result ≡ long }
{
    if bytes[VERSION_AT] == ENDLESS_VERSION {
        return told_size(bytes);
    }
    told_length::<ClusterLayout>(bytes)
}

/// Whether two images are of one set: of one kind, with the same cluster number, disks and slots.
pub fn are_one_set(one: &AnyHeader, other: &AnyHeader) -> bool
    ensures { IsTrue result ↔ AreOneSet one.now other.now }
{
    match one {
        AnyHeader::Ending(one) => match other {
            AnyHeader::Ending(other) => is_same_ending(one, other),
            AnyHeader::Endless(_) => false,
        },
        AnyHeader::Endless(one) => match other {
            AnyHeader::Ending(_) => false,
            AnyHeader::Endless(other) => check_set(one, other).is_ok(),
        },
    }
}

fn is_same_ending(one: &Header, other: &Header) -> bool
    ensures { IsTrue result ↔ IsSameEnding one.now other.now }
{
    one.cluster == other.cluster && one.disks == other.disks && one.slots == other.slots
}
