ghost use Rattle.std.specs.Prelude.{◌≡◌, ◌↔◌, Some};
ghost use Rattle.paxos_block.specs.declared.header.Header.{Header as Said};
ghost use Rattle.endless_image.specs.declared.progress.Progress.{Progress};
ghost use Rattle.endless_image.specs.Headers.{IsRight};
ghost use Rattle.endless_image.specs.InPlace.{IsEnding, IsUnfinished};

use crate::header::{ENDLESS_VERSION, EndlessHeader, MARK_AT, VERSION_AT, decode_endless_header};
use crate::size::{LEAST_SLOTS, told_size};
use paxos_block::{Header, decode_header, told_length};
use torn_block::{ClusterLayout, HEADER_LENGTH};

/// How far an image of a log that ends is on its way to a log without an end.
#[derive(Clone, Copy, Debug, PartialEq, Eq)]
pub enum Progress {
    /// It is of a log that ends. It may be longer than such a one.
    Ending(Header),
    /// It is marked: `finish_endless` does the rest.
    Marked(EndlessHeader),
    /// It is of a log without an end.
    Endless(EndlessHeader),
}

/// How far an image is, by the disk that it is named as, its length in bytes, and its first bytes. None where it is of no such log, or has too few slots.
pub fn progress_in(disk: u8, long: u64, bytes: &[u8; HEADER_LENGTH]) -> Option<Progress>
    ensures ending { (header : Said) → (result ≡ Some (Progress.Ending header)) ↔ IsEnding disk long bytes.now header }
    ensures marked { (header : EndlessHeader) → (result ≡ Some (Progress.Marked header)) ↔ IsUnfinished disk long bytes.now header }
    ensures endless { (header : EndlessHeader) → (result ≡ Some (Progress.Endless header)) ↔ IsRight disk long bytes.now header }
{
    if let Ok(header) = decode_endless_header(disk, long, bytes) {
        return Some(Progress::Endless(header));
    }
    if let Some(header) = ending_in(disk, long, bytes) {
        return Some(Progress::Ending(header));
    }
    match marked_in(disk, long, bytes) {
        Some(header) => Some(Progress::Marked(header)),
        None => None,
    }
}

fn ending_in(disk: u8, long: u64, bytes: &[u8; HEADER_LENGTH]) -> Option<Header>
    ensures { (header : Said) → (result ≡ Some header) ↔ IsEnding disk long bytes.now header }
{
    let own = told_length::<ClusterLayout>(bytes);
    let Ok(header) = decode_header::<ClusterLayout>(disk, own, bytes) else {
        return None;
    };
    if header.slots < LEAST_SLOTS {
        return None;
    }
    if long < own {
        return None;
    }
    Some(header)
}

fn marked_in(disk: u8, long: u64, bytes: &[u8; HEADER_LENGTH]) -> Option<EndlessHeader>
    ensures { (header : EndlessHeader) → (result ≡ Some header) ↔ IsUnfinished disk long bytes.now header }
{
    if bytes[MARK_AT] == 0 {
        return None;
    }
    let mut finished = *bytes;
    finished[VERSION_AT] = ENDLESS_VERSION;
    finished[MARK_AT] = 0;
    let own = told_size(bytes);
    let Ok(header) = decode_endless_header(disk, own, &finished) else {
        return None;
    };
    if header.first_epoch != 0 {
        return None;
    }
    if long < own {
        return None;
    }
    Some(header)
}
