ghost use Rattle.std.specs.Prelude.{◌≡◌};
ghost use Rattle.slot_log.specs.Learning.{operation_as, is_placed};

use crate::outcome::LogOutcome;
use attempt::Refusal;
use torn_block::Layout;

/// What a learner is asked to do.
#[derive(Clone, Copy, Debug, PartialEq, Eq)]
pub enum Operation<V> {
    /// To put this value into the log.
    Placing(V),
    /// To learn all that is in the log.
    Recovering,
}

/// An operation under way.
#[derive(Clone, Copy, Debug)]
pub struct LogTask<V> {
    pub operation: Operation<V>,
    /// How many attempts may be outrun from now on, the last of which ends the operation.
    pub tries: u8,
}

impl<V: Copy> Operation<V> {
    ghost use Rattle.std.specs.Prelude.{◌≡◌, ℕ, List, option_map};
    ghost use Rattle.slot_log.specs.Learning.{operation_as, input_of, full_outcome};

    /// What its attempts propose.
    pub fn input(&self) -> Option<V>
        ensures { (spelled : V → List ℕ) → option_map spelled result ≡ input_of (operation_as spelled self.now) }
    {
        match self {
            Operation::Placing(value) => Some(*value),
            Operation::Recovering => None,
        }
    }

    /// How it ends once all slots are learned.
    pub fn outcome_when_full(&self, learned: u16) -> LogOutcome
        ensures { (spelled : V → List ℕ) → result ≡ full_outcome (operation_as spelled self.now) learned }
    {
        match self {
            Operation::Placing(_) => LogOutcome::Refused(Refusal::LogFull),
            Operation::Recovering => LogOutcome::Recovered { length: learned },
        }
    }
}

/// Whether this is the value that was to be placed.
pub fn is_placed_by<L: Layout>(operation: &Operation<L::Value>, value: &L::Value) -> bool
    ensures { result ≡ is_placed (operation_as L.spelled operation.now) (L.spelled value.now) }
{
    match operation {
        Operation::Placing(wanted) => L::is_same(wanted, value),
        Operation::Recovering => false,
    }
}
