ghost use Rattle.std.specs.Prelude.{◌≡◌, ◌≤◌};
ghost use Rattle.std.specs.Option.{SomeIff};
ghost use Rattle.torn_block.specs.Layout.{cluster_version};
ghost use Rattle.torn_block.specs.declared.layout.TheConstants.{DISKS, SLOTS};
ghost use Rattle.paxos_block.specs.Places;

use crate::place::image_length;
use std::marker::Model;
use torn_block::{ClusterLayout, DISKS, SLOTS};

/// How many disks a cluster has, and how many slots its log.
#[derive(Clone, Copy, Debug, PartialEq, Eq)]
pub struct Config {
    disks: u8,
    slots: u16,
}

impl Model for Config {
    ghost use Rattle.std.specs.Prelude.{◌≤◌};
    ghost use Rattle.torn_block.specs.declared.layout.TheConstants.{DISKS, SLOTS};
    ghost use Rattle.paxos_block.specs.Shape.{Shape};

    ghost Value = { Shape };

    ghost view = { λ c. record { disks = c.disks; slots = c.slots } };

    ghost invariant = { λ c. (1 ≤ c.disks) × (c.disks ≤ DISKS) × (1 ≤ c.slots) × (c.slots ≤ SLOTS) };

    ghost inverse = { λ s. record { disks = s.disks; slots = s.slots } };
}

impl Config {
    /// From 1 to 7 disks, and from 1 to 4096 slots.
    pub fn new(disks: u8, slots: u16) -> Option<Self>
        ensures { SomeIff result ((1 ≤ disks) × (disks ≤ DISKS) × (1 ≤ slots) × (slots ≤ SLOTS)) (record { disks = disks; slots = slots }) }
    {
        if 1 <= disks && disks <= DISKS && 1 <= slots && u32::from(slots) <= SLOTS {
            Some(Config { disks, slots })
        } else {
            None
        }
    }

    pub fn disks(self) -> u8
        ensures value { result ≡ self.disks }
        ensures range { (1 ≤ result) × (result ≤ DISKS) }
    {
        self.disks
    }

    pub fn slots(self) -> u16
        ensures value { result ≡ self.slots }
        ensures range { (1 ≤ result) × (result ≤ SLOTS) }
    {
        self.slots
    }

    /// The bytes that each disk has to have at least.
    pub fn image_length(self) -> u64
        ensures { result ≡ Places.image_length cluster_version self.slots }
    {
        image_length::<ClusterLayout>(u32::from(self.slots))
    }
}
