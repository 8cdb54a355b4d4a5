ghost use Rattle.std.specs.Prelude.{◌≡◌, ◌≤◌};
ghost use Rattle.std.specs.Option.{SomeIff};
ghost use Rattle.torn_block.specs.declared.layout.TheConstants.{SLOTS};

use std::marker::Model;
use torn_block::SLOTS;

/// How many slots a log has, 1 to 4096.
#[derive(Clone, Copy, Debug, PartialEq, Eq)]
pub struct SlotCount(u16);

impl Model for SlotCount {
    ghost use Rattle.std.specs.Prelude.{ℕ, ◌≤◌};
    ghost use Rattle.torn_block.specs.declared.layout.TheConstants.{SLOTS};

    ghost Value = { ℕ };

    ghost view = { λ slots. slots.0 };

    ghost invariant = { λ slots. (1 ≤ slots.0) × (slots.0 ≤ SLOTS) };

    ghost inverse = { λ n. record { 0 = n } };
}

impl SlotCount {
    /// This number of slots, if a log may have it.
    pub fn new(slots: u16) -> Option<Self>
        ensures { SomeIff result ((1 ≤ slots) × (slots ≤ SLOTS)) slots }
    {
        if 1 <= slots && u32::from(slots) <= SLOTS {
            Some(SlotCount(slots))
        } else {
            None
        }
    }

    pub fn get(self) -> u16
        ensures value { result ≡ self }
        ensures range { (1 ≤ result) × (result ≤ SLOTS) }
    {
        self.0
    }
}
