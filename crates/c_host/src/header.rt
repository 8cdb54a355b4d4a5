ghost use Rattle.c_host.specs.Headers.{LaysOut};

use crate::fault::BAD_ARGUMENT;
use host::Config;
use paxos_block::{Header, encode_header};
use torn_block::{ClusterLayout, HEADER_LENGTH};

/// What C writes as the first bytes of an image.
#[repr(C)]
#[derive(Clone, Copy, Drop)]
pub struct HeaderBytes {
    /// How long the image is.
    pub size: u64,
    pub bytes: [u8; HEADER_LENGTH],
}

/// The header of an image of a folder that is to be made, if it may be.
pub fn lay_out(disks: u32, slots: u32, cluster: u64, disk: u32, into: &mut HeaderBytes) -> i32
    ensures { LaysOut disks slots cluster disk into.old into.new result }
{
    let (Ok(disks), Ok(slots), Ok(disk)) = (
        u8::try_from(disks),
        u16::try_from(slots),
        u8::try_from(disk),
    ) else {
        return BAD_ARGUMENT;
    };
    let Some(config) = Config::new(disks, slots) else {
        return BAD_ARGUMENT;
    };
    if disk >= disks {
        return BAD_ARGUMENT;
    }
    *into = HeaderBytes {
        size: config.image_length(),
        bytes: encode_header::<ClusterLayout>(&Header {
            disk,
            disks,
            slots: u32::from(slots),
            cluster,
        }),
    };
    0
}
