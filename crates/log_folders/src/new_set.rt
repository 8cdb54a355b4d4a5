ghost use Rattle.std.specs.Prelude.{◌≡◌, ◌<◌, ◌≤◌, ◌↔◌, IsTrue};
ghost use Rattle.std.specs.Option.{SomeIff};
ghost use Rattle.torn_block.specs.declared.layout.TheConstants.{DISKS, HEADER_LENGTH, SLOTS};
ghost use Rattle.endless_image.specs.Kinds.{IsSlotsBy};
ghost use Rattle.log_folders.specs.NewSets.{header_for, size_for};

use endless_image::{Kind, LEAST_SLOTS};
use paxos_block::Config;
use std::marker::Model;
use torn_block::HEADER_LENGTH;

/// The images that are to be made together: of logs of this kind, with these numbers.
#[derive(Clone, Copy, Debug, PartialEq, Eq)]
pub struct NewSet {
    kind: Kind,
    config: Config,
    cluster: u64,
}

impl Model for NewSet {
    ghost use Rattle.endless_image.specs.Kinds.{IsSlotsBy};
    ghost use Rattle.log_folders.specs.NewSets.{Wanted};

    ghost Value = { Wanted };

    ghost view = { λ s. record { kind = s.kind; config = s.config; cluster = s.cluster } };

    ghost invariant = { λ s. IsSlotsBy s.kind s.config.slots };

    ghost inverse = { λ w. record { kind = w.kind; config = w.config; cluster = w.cluster } };
}

impl NewSet {
    /// None where images of this kind cannot have so many slots: an epoch has 320 at least.
    pub fn new(kind: Kind, config: Config, cluster: u64) -> Option<Self>
        ensures { SomeIff result (IsSlotsBy kind config.slots)
            (record { kind = kind; config = config; cluster = cluster }) }
    {
        if may_have(kind, config.slots()) {
            Some(NewSet {
                kind,
                config,
                cluster,
            })
        } else {
            None
        }
    }

    pub fn kind(&self) -> Kind
        ensures { result ≡ self.now.kind }
    {
        self.kind
    }

    pub fn config(&self) -> Config
        ensures { result ≡ self.now.config }
    {
        self.config
    }

    /// The number that all images of the set have.
    pub fn cluster(&self) -> u64
        ensures { result ≡ self.now.cluster }
    {
        self.cluster
    }

    /// How many images there are to be.
    pub fn disks(&self) -> u8
        ensures value { result ≡ self.now.config.disks }
        ensures range { (1 ≤ result) × (result ≤ DISKS) }
    {
        self.config.disks()
    }

    /// The bytes of each of them.
    pub fn image_size(&self) -> u64
        ensures value { result ≡ size_for self.now }
        // It has room for its header.
        ensures room { HEADER_LENGTH ≤ result }
    {
        self.kind.image_size(self.config)
    }

    /// The first bytes of the image of this disk.
    pub fn first_bytes(&self, disk: u8) -> [u8; HEADER_LENGTH]
        requires { disk < self.now.config.disks }
        ensures { result ≡ header_for self.now disk }
    {
        self.kind.first_bytes(disk, self.config, self.cluster)
    }
}

/// Whether images of this kind may have so many slots, of those that a log may have.
fn may_have(kind: Kind, slots: u16) -> bool
    requires some { 1 ≤ slots }
    requires most { slots ≤ SLOTS }
    ensures { IsTrue result ↔ IsSlotsBy kind slots }
{
    match kind {
        Kind::Ending => true,
        Kind::Endless => LEAST_SLOTS <= u32::from(slots),
    }
}
