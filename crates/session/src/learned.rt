ghost use Rattle.std.specs.Prelude.{◌≡◌, ◌↔◌, IsTrue};
ghost use Rattle.session.specs.Places as places;
ghost use Rattle.session.specs.Places.{IsFull};

use lock_command::Command;
use lock_table::Picture;

/// What a host has learned of the log of a folder, and the lock table after it. The commands of a log have places, from 0 on; in a log that ends they are
/// its slots.
#[derive(Clone, Copy, Drop)]
pub struct Learned<'a> {
    /// The place of the first command that is known: of `before`, or where that is empty of `log`.
    pub first: u64,
    /// The commands of the epoch before the newest one, all of them; none where they are not known, and of a log that ends.
    pub before: &'a [Command],
    /// The commands learned behind these: of the newest epoch, or of the log that ends.
    pub log: &'a [Command],
    /// How many commands the log takes. None: it has no end.
    pub slots: Option<u64>,
    /// The locks and clients after them.
    pub table: &'a Picture,
    /// Whether a process that is gone holds the name which is wanted.
    pub left_over: bool,
}

impl Learned<'_> {
    /// The command at this place, if it is known.
    pub fn command(&self, place: u64) -> Option<Command>
        ensures { result ≡ places.command_at self.now place }
    {
        if place < self.first {
            return None;
        }
        let at = (place - self.first) as usize;
        let former = self.before.len();
        if at < former {
            Some(self.before[at])
        } else if at - former < self.log.len() {
            Some(self.log[at - former])
        } else {
            None
        }
    }

    /// So many places come before those that are not known yet: at most the greatest number of 64 bits.
    pub fn upto(&self) -> u64
        ensures { result ≡ places.upto self.now }
    {
        self.first
            .saturating_add(self.before.len() as u64)
            .saturating_add(self.log.len() as u64)
    }

    /// Whether the log has an end, and takes no further command.
    pub fn is_full(&self) -> bool
        ensures { IsTrue result ↔ IsFull self.now }
    {
        match self.slots {
            Some(slots) => slots <= self.upto(),
            None => false,
        }
    }
}
