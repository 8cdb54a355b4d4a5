// What carries the table over into an epoch.
ghost use Rattle.std.specs.Prelude.{◌≡◌, ◌↔◌, true, Some, IfSome, IsTrue};
ghost use Rattle.lock_command.specs.Command.{spelling};
ghost use Rattle.lock_command.specs.Reading.{decoded};
ghost use Rattle.host.specs.Host.{Submitting};

use lock_command::{Command, Value, decode};

/// What carries into an epoch the table that the one before it left: the commands of its first slots.
#[derive(Drop)]
pub enum Over {
    /// The host has not learned the epoch before.
    Unknown,
    Known {
        /// The bytes of the commands of the first slots.
        values: Vec<Value>,
        /// All commands of the epoch before. None before the first one.
        before: Vec<Command>,
    },
}

impl Over {
    ghost use Rattle.epoch_host.specs.Knowing.{before_over};
    ghost use Rattle.epoch_host.specs.Submitting.{IsDueIn, Stands};

    pub fn is_known(&self) -> bool {
        matches!(self, Over::Known { .. })
    }

    /// All commands of the epoch before. None where it is not learned, and before the first epoch.
    pub fn epoch_before(&self) -> &[Command]
        ensures { result.now ≡ before_over self.now }
    {
        match self {
            Over::Unknown => &[],
            Over::Known { before, .. } => before,
        }
    }

    /// The command that is due in a slot, if it is one of the first slots.
    pub fn due(&self, slot: u16) -> Option<Command>
        ensures due { IfSome result (λ command. IsDueIn self.now slot (Submitting command)) }
        ensures spelled { IfSome result (λ command. decoded (spelling command) ≡ Some command) }
    {
        match self {
            Over::Unknown => None,
            Over::Known { values, .. } => decode(values.get(usize::from(slot))?),
        }
    }

    /// Whether all of it stands where these commands are the first of the epoch. A command for which a client may ask stands only behind it.
    pub fn stands(&self, learned: &[Command]) -> bool
        ensures { IsTrue result ↔ Stands self.now learned.now }
    {
        match self {
            Over::Unknown => learned.iter().any(|command| command.is_submittable()),
            Over::Known { values, .. } => values.len() <= learned.len(),
        }
    }
}
