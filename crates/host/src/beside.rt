ghost use Rattle.std.specs.Prelude.{◌≡◌};
ghost use Rattle.host.specs.Kept.{is_nothing};

use rounds::beats::Beat;
use rounds::looks::Look;
use rounds::marks::Marking;

/// What a host has under way beside the attempts of its learner.
#[derive(Drop)]
pub(crate) enum Beside {
    Nothing,
    Look(Look),
    Beat(Beat),
    Mark(Marking),
}

impl Beside {
    /// Whether the learner alone may be at work.
    #[inline(always)]
    pub(crate) fn is_nothing(&self) -> bool
        ensures { result ≡ is_nothing self.now }
    {
        matches!(self, Beside::Nothing)
    }
}
