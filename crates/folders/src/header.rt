ghost use Rattle.std.specs.Prelude.{◌≡◌, ◌≢◌, ◌⊎◌, ◌≤◌, ◌<◌, ◌↔◌, ℕ, IfOk, Err, Ok};
ghost use Rattle.torn_block.specs.Layout.{Version};
ghost use Rattle.paxos_block.specs.Headers.{IsFormatted, IsRight};
ghost use Rattle.folders.specs.Headers as headers;
ghost use Rattle.folders.specs.Headers.{IsOld, HasWrongHeader};

use disk::ImageFault;
use paxos_block::{Header, decode_header, told_length};
use torn_block::{ClusterLayout, HEADER_LENGTH, Layout, Layout1};

// Where the number of an image's layout stands.
const VERSION_AT: usize = 1;

/// The header of an image, by the disk that it is named as, its length in bytes, and its first bytes. An image that is right by the
/// layout that images had before has a fault of its own; before the first layout there was none.
pub fn image_header<L: Layout>(
    disk: u8,
    long: u64,
    bytes: &[u8; HEADER_LENGTH],
) -> Result<Header, ImageFault>
    // What is read is right, and what is right is read.
    ensures right { IfOk result (IsRight L.version disk long bytes.now) }
    ensures only { (header : Header) → IsRight L.version disk long bytes.now header → result ≡ Ok header }
    ensures not_formatted { (result ≡ Err ImageFault.NotFormatted) ↔
        ((HEADER_LENGTH ≤ long) × ¬ IsFormatted bytes.now) }
    ensures wrong_header { (result ≡ Err ImageFault.WrongHeader) ↔
        ((long < HEADER_LENGTH) ⊎ HasWrongHeader L.version disk long bytes.now) }
    // It passes all checks of that layout.
    ensures old_layout { (result ≡ Err ImageFault.OldLayout) ↔ IsOld L.version disk long bytes.now }
    ensures readable { result ≢ Err ImageFault.Unreadable }
{
    match decode_header::<Layout1>(disk, long, bytes) {
        Ok(_) if Layout1::VERSION < L::VERSION => Err(ImageFault::OldLayout),
        _ => decode_header::<L>(disk, long, bytes),
    }
}

/// How long an image is by its first bytes, in the layout whose number they have. The bytes may be wrong otherwise.
pub fn length_in_header(bytes: &[u8; HEADER_LENGTH]) -> u64
    ensures told { result ≡ headers.told_length bytes.now }
    // An image that is right by either layout is that long.
    ensures right { (v : Version) (disk long : ℕ) (header : Header) → IsRight v disk long bytes.now header → result ≡ long }
{
    if bytes[VERSION_AT] == Layout1::VERSION {
        told_length::<Layout1>(bytes)
    } else {
        told_length::<ClusterLayout>(bytes)
    }
}
