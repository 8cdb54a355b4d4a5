//! The command that a claim orders.
ghost use Rattle.std.specs.Prelude.{◌≡◌, IfSome, None};
ghost use Rattle.lock_command.specs.declared.command.Command.{Command};
ghost use Rattle.lock_command.specs.Command.{Fits};
ghost use Rattle.c_claims.specs.Asking.{IsToSubmit};

use lock_command::{Command, HostNumber};
use session::{Claim, Order};

/// How often a command may be outrun, until its task ends.
pub const TRIES: u8 = 1;

/// The command that is to be submitted through this host, if one is.
pub fn due_command(claim: &Claim, host: HostNumber) -> Option<Command>
    ensures due { IfSome result (IsToSubmit claim.now host) }
    ensures fits { IfSome result Fits }
    ensures none { result ≡ None → (command : Command) → IsToSubmit claim.now host command → ⊥ }
{
    match claim.next() {
        Order::Submit(command) if command.host == host && command.is_submittable() => {
            // Called for its contract only: the command's numbers are in their ranges.
            let _spelled = command.encode();
            Some(command)
        }
        _ => None,
    }
}
