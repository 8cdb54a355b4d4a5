ghost use Rattle.std.specs.Prelude.{◌≡◌, ◌<◌, Option};
ghost use Rattle.endless_image.specs.Kinds.{IsSlotsBy, header_by, kind_by, size_by};

use crate::header::{EndlessHeader, encode_endless_header};
use crate::size::image_size;
use paxos_block::{Config, Header, encode_header};
use torn_block::{ClusterLayout, HEADER_LENGTH};

/// The slots of an epoch where nobody says how many.
pub const USUAL_SLOTS: u16 = 1024;

/// The two kinds of logs that the images of a set may have.
#[derive(Clone, Copy, Debug, PartialEq, Eq)]
pub enum Kind {
    /// A log of so many slots.
    Ending,
    /// A log whose epochs have so many slots each.
    Endless,
}

impl Kind {
    /// What images are made where this number of slots is asked for: one makes a log that ends, and none a log without an end.
    pub fn asked_by(slots: Option<u16>) -> (Kind, u16)
        ensures { result ≡ kind_by slots }
    {
        match slots {
            Some(slots) => (Kind::Ending, slots),
            None => (Kind::Endless, USUAL_SLOTS),
        }
    }

    /// The bytes of an image of this kind.
    pub fn image_size(self, config: Config) -> u64
        ensures { result ≡ size_by self config.slots }
    {
        match self {
            Kind::Ending => config.image_length(),
            Kind::Endless => image_size(u32::from(config.slots())),
        }
    }

    /// The first bytes of a new image of this kind.
    pub fn first_bytes(self, disk: u8, config: Config, cluster: u64) -> [u8; HEADER_LENGTH]
        requires disk { disk < config.disks }
        requires slots { IsSlotsBy self config.slots }
        ensures { result ≡ header_by self disk config cluster }
    {
        let slots = u32::from(config.slots());
        match self {
            Kind::Ending => encode_header::<ClusterLayout>(&Header {
                disk,
                disks: config.disks(),
                slots,
                cluster,
            }),
            Kind::Endless => encode_endless_header(&EndlessHeader {
                disk,
                disks: config.disks(),
                slots,
                cluster,
                first_epoch: 0,
            }),
        }
    }
}
