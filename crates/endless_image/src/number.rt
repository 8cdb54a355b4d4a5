// Numbers among bytes, the highest byte first, and runs of zeros.
ghost use Rattle.std.specs.Prelude.{◌≡◌, ◌≤◌, length};
ghost use Rattle.paxos_block.specs.Saying.{number_at, zeros};
ghost use Rattle.paxos_block.specs.Headers.{short_at, short_bytes};

use byteorder::{BigEndian, ByteOrder};

/// The bytes of a cluster number, or of an epoch.
pub(crate) const NUMBER_LENGTH: usize = 8;

/// The bytes of a count of slots.
pub(crate) const SHORT_LENGTH: usize = 4;

pub(crate) fn number_in(bytes: &[u8]) -> u64
    requires { NUMBER_LENGTH ≤ length bytes.now }
    ensures { result ≡ number_at 0 bytes.now }
{
    BigEndian::read_u64(bytes)
}

pub(crate) fn short_in(bytes: &[u8]) -> u32
    requires { SHORT_LENGTH ≤ length bytes.now }
    ensures { result ≡ short_at 0 bytes.now }
{
    BigEndian::read_u32(bytes)
}

pub(crate) fn put_short(bytes: &mut [u8], number: u32)
    requires { length bytes.old ≡ SHORT_LENGTH }
    ensures { bytes.new ≡ short_bytes number }
{
    BigEndian::write_u32(bytes, number);
}

pub(crate) fn put_zeros(bytes: &mut [u8])
    ensures { bytes.new ≡ zeros (length bytes.old) }
{
    bytes.fill(0);
}
