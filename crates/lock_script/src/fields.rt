ghost use Rattle.std.specs.Prelude.{◌≡◌};
ghost use Rattle.lock_script.specs.Reading.{host_of, disk_of, slot_of, tries_of, times_of, client_of, request_of, lock_of};

use crate::number::number_in;
use lock_command::{ClientNumber, HOSTS, HostNumber, LockNumber, RequestNumber};
use torn_block::{DISKS, SLOTS};

/// Hosts are numbered from 0.
const LAST_HOST: u64 = HOSTS as u64 - 1;

/// Disks are numbered from 0. No cluster has a disk with a higher number than this.
const LAST_DISK: u64 = DISKS as u64 - 1;

/// Slots are numbered from 0. No log has a slot with a higher number than this.
const LAST_SLOT: u64 = SLOTS as u64 - 1;

/// The most steps that one line asks for.
const MOST_STEPS: u64 = 100_000;

/// The number of a host, 0 to 15.
pub fn host_of(word: &[u8]) -> Option<HostNumber>
    ensures { result ≡ host_of word.now }
{
    HostNumber::new(number_in(word, 0, LAST_HOST)? as u8)
}

/// The number of a disk, 0 to 6. Whether the cluster has that disk is not looked at.
pub fn disk_of(word: &[u8]) -> Option<u8>
    ensures { result ≡ disk_of word.now }
{
    Some(number_in(word, 0, LAST_DISK)? as u8)
}

/// The number of a slot, 0 to 4095. Whether the log has that slot is not looked at.
pub fn slot_of(word: &[u8]) -> Option<u16>
    ensures { result ≡ slot_of word.now }
{
    Some(number_in(word, 0, LAST_SLOT)? as u16)
}

/// How many attempts may be outrun.
pub fn tries_of(word: &[u8]) -> Option<u8>
    ensures { result ≡ tries_of word.now }
{
    Some(number_in(word, 1, 255)? as u8)
}

/// How many steps are made.
pub fn times_of(word: &[u8]) -> Option<u32>
    ensures { result ≡ times_of word.now }
{
    Some(number_in(word, 1, MOST_STEPS)? as u32)
}

pub fn client_of(word: &[u8]) -> Option<ClientNumber>
    ensures { result ≡ client_of word.now }
{
    Some(ClientNumber::new(number_in(word, 0, 255)? as u8))
}

pub fn request_of(word: &[u8]) -> Option<RequestNumber>
    ensures { result ≡ request_of word.now }
{
    RequestNumber::new(number_in(word, 1, RequestNumber::LAST)?)
}

pub fn lock_of(word: &[u8]) -> Option<LockNumber>
    ensures { result ≡ lock_of word.now }
{
    LockNumber::new(number_in(word, 1, 65_535)? as u16)
}
