ghost use Rattle.std.specs.Prelude.{◌≡◌, ◌==◌, ◌+◌, ◌≤◌, ℕ, List, length, refl, bytes_eq};
ghost use Rattle.std.specs.List.{list_all};
ghost use Rattle.disk.specs.Disk.{Read, read_answer};
ghost use Rattle.torn_block.specs.Layout.{Version, Version1, Version2, number_of, hosts_in, copy_length, value_length, row_length, padding, area_place};

use disk::{Boot, Disk, DiskFault};

/// A cluster has at most so many disks.
pub const DISKS: u8 = 7;

/// A disk has rows for at most so many slots.
pub const SLOTS: u32 = 4096;

/// Sequence numbers go from 1 to this one.
pub const LAST_SEQUENCE: u64 = 1 << 62;

/// How many bytes of a body are before the sequence number.
pub const HEADING_LENGTH: usize = 7;

/// The bytes of an image's header.
pub const HEADER_LENGTH: usize = 1024;

/// The most hosts of any layout.
pub const HOSTS_ROOM: usize = 16;

/// The most bytes of a copy, in any layout.
pub const COPY_ROOM: usize = 128;

/// All of the longest copy but its gate and its sequence number.
pub const BODY_ROOM: usize = COPY_ROOM - 9;

/// The layout of a cluster's images. Whatever is not generic over layouts is of this one.
pub type ClusterLayout = Layout2;

/// The number of the cluster's layout, in each header and each copy.
pub const VERSION: u8 = ClusterLayout::VERSION;

/// Hosts are numbered from 0 to one below this.
pub const HOSTS: usize = ClusterLayout::HOSTS;

/// How many bytes a copy has: its gate, and the rest.
pub const COPY_LENGTH: usize = ClusterLayout::COPY_LENGTH;

/// All of a copy but its gate.
pub const TAIL_LENGTH: usize = COPY_LENGTH - 1;

/// All of a copy but its gate and its sequence number.
pub const BODY_LENGTH: usize = COPY_LENGTH - 9;

/// The two copies of a block.
pub const BLOCK_LENGTH: usize = 2 * COPY_LENGTH;

/// How many bytes an input has. It comes after the heading and two numbers.
pub const VALUE_LENGTH: usize = ClusterLayout::VALUE_LENGTH;

/// A block of each host: a slot's row, and the heartbeat area.
pub const ROW_LENGTH: usize = HOSTS * BLOCK_LENGTH;

/// Where the blocks of an image are, and how long they are.
pub trait Layout {
    /// An input: a command, spelled in bytes that are not looked at here.
    type Value: Copy + Drop;

    /// The bytes of a row: a block of each host.
    type Row: Copy + Drop;

    /// The number of this layout, in each header and each copy.
    const VERSION: u8;

    /// Hosts are numbered from 0 to one below this.
    const HOSTS: usize;

    /// The bytes of a copy.
    const COPY_LENGTH: usize;

    /// How many bytes an input has. It comes after the heading and two numbers.
    const VALUE_LENGTH: usize;

    /// Where the heartbeat area begins.
    const AREA_PLACE: u64;

    ghost VERSION: { ℕ };

    ghost HOSTS: { ℕ };

    ghost COPY_LENGTH: { ℕ };

    ghost VALUE_LENGTH: { ℕ };

    ghost AREA_PLACE: { ℕ };

    ghost version: { Version };

    // The bytes of an input.
    ghost spelled: { Self.Value → List ℕ };

    // The bytes of a row.
    ghost row_bytes: { Self.Row → List ℕ };

    /// The bytes of a row.
    fn bytes_in(row: &Self::Row) -> &[u8]
        ensures bytes { result.now ≡ row_bytes row.now }
        ensures long { length result.now ≡ row_length version };

    /// Reads a row from `at` on. At `Err` its bytes are any.
    fn read_row<D: Disk>(
        disk: &mut D,
        boot: Boot,
        at: u64,
        row: &mut Self::Row,
    ) -> Result<(), DiskFault>
        requires { at + row_length version ≤ (D.device disk.old).size }
        ensures device { D.device disk.new ≡ D.device disk.old }
        ensures gives { D.gives disk.old (Read boot.number at (row_length version)) (read_answer result (row_bytes row.new)) disk.new };

    /// The input that these bytes are.
    fn value_in(bytes: &[u8]) -> Self::Value
        requires { length bytes.now ≡ value_length version }
        ensures { spelled result ≡ bytes.now };

    /// Puts the bytes of an input.
    fn put_value(value: &Self::Value, bytes: &mut [u8])
        requires { length bytes.old ≡ value_length version }
        ensures { bytes.new ≡ spelled value.now };

    /// Whether these bytes of an input are zeros. A row may have many such.
    fn is_blank(bytes: &[u8]) -> bool
        requires { length bytes.now ≡ value_length version }
        ensures { result ≡ list_all (λ b. b == 0) bytes.now };

    /// Whether these bytes, after an input, are zeros.
    fn is_padding(bytes: &[u8]) -> bool
        requires { length bytes.now ≡ padding version }
        ensures { result ≡ list_all (λ b. b == 0) bytes.now };

    /// Whether two inputs have the same bytes.
    fn is_same(one: &Self::Value, other: &Self::Value) -> bool
        ensures { result ≡ bytes_eq (spelled one.now) (spelled other.now) };

    ghost number_is: { VERSION ≡ number_of version };

    ghost hosts_is: { HOSTS ≡ hosts_in version };

    ghost copy_is: { COPY_LENGTH ≡ copy_length version };

    ghost value_is: { VALUE_LENGTH ≡ value_length version };

    ghost area_is: { AREA_PLACE ≡ area_place version };
}

/// Eight hosts, and copies of 64 bytes.
pub struct Layout1;

/// Sixteen hosts, and copies of 128 bytes.
pub struct Layout2;

impl Layout for Layout1 {
    type Value = [u8; 32];

    type Row = [u8; 1024];

    const VERSION: u8 = 1;

    const HOSTS: usize = 8;

    const COPY_LENGTH: usize = 64;

    const VALUE_LENGTH: usize = 32;

    const AREA_PLACE: u64 = HEADER_LENGTH as u64;

    ghost VERSION = { 1 };

    ghost HOSTS = { 8 };

    ghost COPY_LENGTH = { 64 };

    ghost VALUE_LENGTH = { 32 };

    ghost AREA_PLACE = { 1024 };

    ghost version = { Version1 };

    ghost spelled = { λ value. value };

    ghost row_bytes = { λ row. row };

    fn bytes_in(row: &[u8; 1024]) -> &[u8] {
        row
    }

    #[inline(always)]
    fn read_row<D: Disk>(
        disk: &mut D,
        boot: Boot,
        at: u64,
        row: &mut [u8; 1024],
    ) -> Result<(), DiskFault> {
        disk.read(boot, at, row)
    }

    fn value_in(bytes: &[u8]) -> [u8; 32] {
        let mut value = [0; 32];
        value.copy_from_slice(bytes);
        value
    }

    fn put_value(value: &[u8; 32], bytes: &mut [u8]) {
        bytes.copy_from_slice(value);
    }

    fn is_blank(bytes: &[u8]) -> bool {
        are_zeros::<32>(bytes)
    }

    fn is_padding(_bytes: &[u8]) -> bool {
        true
    }

    fn is_same(one: &[u8; 32], other: &[u8; 32]) -> bool {
        one == other
    }

    ghost number_is = { refl };

    ghost hosts_is = { refl };

    ghost copy_is = { refl };

    ghost value_is = { refl };

    ghost area_is = { refl };
}

impl Layout for Layout2 {
    type Value = [u8; 48];

    type Row = [u8; 4096];

    const VERSION: u8 = 2;

    const HOSTS: usize = 16;

    const COPY_LENGTH: usize = 128;

    const VALUE_LENGTH: usize = 48;

    const AREA_PLACE: u64 = 4096;

    ghost VERSION = { 2 };

    ghost HOSTS = { 16 };

    ghost COPY_LENGTH = { 128 };

    ghost VALUE_LENGTH = { 48 };

    ghost AREA_PLACE = { 4096 };

    ghost version = { Version2 };

    ghost spelled = { λ value. value };

    ghost row_bytes = { λ row. row };

    fn bytes_in(row: &[u8; 4096]) -> &[u8] {
        row
    }

    #[inline(always)]
    fn read_row<D: Disk>(
        disk: &mut D,
        boot: Boot,
        at: u64,
        row: &mut [u8; 4096],
    ) -> Result<(), DiskFault> {
        disk.read(boot, at, row)
    }

    fn value_in(bytes: &[u8]) -> [u8; 48] {
        let mut value = [0; 48];
        value.copy_from_slice(bytes);
        value
    }

    fn put_value(value: &[u8; 48], bytes: &mut [u8]) {
        bytes.copy_from_slice(value);
    }

    fn is_blank(bytes: &[u8]) -> bool {
        are_zeros::<48>(bytes)
    }

    // In this layout there are as many zeros after an input as an input has bytes.
    fn is_padding(bytes: &[u8]) -> bool {
        Self::is_blank(bytes)
    }

    fn is_same(one: &[u8; 48], other: &[u8; 48]) -> bool {
        one == other
    }

    ghost number_is = { refl };

    ghost hosts_is = { refl };

    ghost copy_is = { refl };

    ghost value_is = { refl };

    ghost area_is = { refl };
}

// Whether these N bytes are zeros. All are looked at, without a branch and without a copy: as their number is known, a few instructions do it.
#[inline(always)]
fn are_zeros<const N: usize>(bytes: &[u8]) -> bool
    requires { length bytes.now ≡ N }
    ensures { result ≡ list_all (λ b. b == 0) bytes.now }
{
    let Ok(array) = <&[u8; N]>::try_from(bytes) else {
        unreachable!()
    };
    let mut zeros = true;
    for at in 0..N {
        zeros &= array[at] == 0;
    }
    zeros
}
