ghost use Rattle.std.specs.Prelude.{◌≡◌};
ghost use Rattle.c_claims.specs.Marking.{is_waited_for};

use lock_command::Action;

/// Tells whether the command of this action is marked at once, since somebody may wait for what it does. Else a host that marks later may do so with its
/// next call.
pub fn is_waited_for(action: &Action) -> bool
    ensures { result ≡ is_waited_for action.now }
{
    !matches!(action, Action::Enqueue { .. } | Action::Status(_))
}
