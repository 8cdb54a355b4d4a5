use crate::slot::Slot;
use std::alloc::AllocError;

/// Why words ask for nothing.
#[derive(Clone, Copy, Debug, PartialEq, Eq)]
pub enum WordFault {
    /// The word at this place, from 0, is bad: this could stand there. With `None` the line could end before it. Where there is no such word, it is missing.
    Bad { place: usize, wanted: Option<Slot> },
    /// The words from this place on are no command.
    NoCommand { place: usize },
    NoMemory,
}

impl From<AllocError> for WordFault {
    ghost use Rattle.std.specs.Prelude.{◌≡◌};
    ghost use Rattle.mg_words.specs.declared.fault.WordFault.TheVariants.{NoMemory};

    ghost from_gives = { λ _ fault. fault ≡ NoMemory };

    fn from(_: AllocError) -> Self {
        WordFault::NoMemory
    }
}
