//! Which commands are marked at once.
ghost use Rattle.std.specs.Prelude.{◌≡◌, ◌↔◌, ℕ, List, true, IsTrue};
ghost use Rattle.lock_command.specs.declared.command.Command.{Command};
ghost use Rattle.c_host.specs.Requests.{IsAsked};
ghost use Rattle.c_claims.specs.Marking.{is_waited_for};

use c_host::Request;

/// Tells whether the command that is asked is marked at once, since somebody may wait for what it does. Else a host that marks later may do so with its
/// next call.
#[unsafe(no_mangle)]
pub extern "C" fn dlm_c_is_waited_for(request: &Request) -> bool
    ensures { (name : List ℕ) → (host : ℕ) → (command : Command) → IsAsked request.now name host command →
        (IsTrue result ↔ (is_waited_for command.action ≡ true)) }
{
    !matches!(request.action, 1 | 5)
}
