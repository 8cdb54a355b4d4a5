ghost use Rattle.std.specs.Prelude.{◌≡◌};
ghost use Rattle.race.specs.Bids.{bid_of};

use lock_command::{
    Action, ClientNumber, Command, HostNumber, LockName, LockNumber, Mode, RequestNumber,
};

/// What a host bids for.
pub(crate) fn bid(host: HostNumber) -> Command
    ensures { result ≡ bid_of host }
{
    let number = host.get();
    let (Some(request), Some(lock), Some(name)) = (
        RequestNumber::new(1),
        LockNumber::new(u16::from(number) + 1),
        LockName::new(b"db"),
    ) else {
        unreachable!()
    };
    Command {
        host,
        client: ClientNumber::new(number),
        request,
        action: Action::Enqueue {
            lock,
            name,
            mode: Mode::Exclusive,
            no_queue: false,
        },
    }
}
