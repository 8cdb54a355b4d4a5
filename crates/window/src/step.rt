// A read of the core under way.
ghost use Rattle.std.specs.Prelude.{◌≡◌};
ghost use Rattle.window.specs.Steps;
ghost use Rattle.window.specs.Steps.{first_step};

use disk::Boot;
use torn_block::HOSTS;

/// What is due in a read of a row.
#[derive(Clone, Copy)]
pub enum Step {
    /// A reading of the standings, before the row.
    First,
    /// The row, after these numbers were read.
    Row { first: [u64; HOSTS], is_last: bool },
    /// The standings once more, the row was read after these numbers.
    Second { first: [u64; HOSTS], is_last: bool },
}

impl Step {
    /// How a read begins: with the row, where the standings were read under its boot number before.
    pub fn first(numbers: Option<[u64; HOSTS]>) -> Step
        ensures { result ≡ first_step numbers }
    {
        match numbers {
            Some(first) => Step::Row {
                first,
                is_last: false,
            },
            None => Step::First,
        }
    }
}

/// A read of a row that has begun, and what is due in it.
#[derive(Clone, Copy)]
pub struct Reading {
    pub disk: u8,
    pub boot: Boot,
    /// Where the row is in the image.
    pub at: u64,
    pub step: Step,
}

impl Reading {
    /// Whether it is this one.
    pub fn is_of(&self, disk: u8, boot: Boot, at: u64) -> bool
        ensures { result ≡ Steps.is_of self.now disk boot.number at }
    {
        self.disk == disk && self.boot.number == boot.number && self.at == at
    }
}
