ghost use Rattle.std.specs.Prelude.{◌≡◌, ◌+◌, ◌≤◌, ◌++◌, [], filter, length, map, vec_len, vec_capacity};
ghost use Rattle.lock_command.specs.Command.{spelling};
ghost use Rattle.lock_table.specs.Carrying.{carried_lock, carried_client, is_among, stays_known};
ghost use Rattle.lock_table.specs.Stored.{value_in, AreNamed};

use crate::clients::CLIENTS;
use crate::known_client::KnownClient;
use crate::values;
use crate::values::NamedValue;
use lock_command::{
    Action, ClientNumber, Command, HostNumber, LOCKS, LockRecord, LockValue, RequestNumber, Value,
};
use lock_index::ByPrintedOrder;

/// The command that carries a lock over, with the value of its name.
fn carry_lock(own: &LockRecord, value: LockValue) -> Command
    ensures { result ≡ carried_lock own.now value }
{
    let Some(request) = RequestNumber::new(1) else {
        unreachable!()
    };
    Command {
        host: own.host,
        client: own.client,
        request,
        action: Action::CarryLock {
            lock: own.lock,
            name: own.name,
            state: own.state,
            value,
        },
    }
}

/// The command that carries a client over.
fn carry_client(known: &KnownClient) -> Command
    ensures { result ≡ carried_client known.now }
{
    let Some(host) = HostNumber::new(0) else {
        unreachable!()
    };
    Command {
        host,
        client: known.client,
        request: known.request,
        action: Action::CarryClient(known.reply),
    }
}

/// The bytes of such a command.
fn lock_value(own: &LockRecord, value: LockValue) -> Value
    ensures { result ≡ spelling (carried_lock own.now value) }
{
    carry_lock(own, value).encode()
}

fn client_value(known: &KnownClient) -> Value
    ensures { result ≡ spelling (carried_client known.now) }
{
    carry_client(known).encode()
}

/// Lists the bytes of a command for each lock.
pub fn carry_locks(locks: &ByPrintedOrder, entries: &[NamedValue], into: &mut Vec<Value>)
    requires empty { into.old.items ≡ [] }
    requires room { LOCKS + CLIENTS ≤ vec_capacity into.old }
    requires named { AreNamed entries.now }
    ensures commands { into.new.items ≡ map (λ r. spelling (carried_lock r (value_in entries.now r.name))) locks.now }
    ensures room { LOCKS + CLIENTS ≤ vec_capacity into.new }
    ensures few { vec_len into.new ≤ LOCKS }
{
    for at in 0..locks.len() {
        let own = locks.get(at);
        let value = values::value_in(entries, own.name);
        let _ = into.push(lock_value(own, value));
    }
}

/// Whether a client is known from now on: it is not to be left out, or it has a lock.
fn stays_known(known: &KnownClient, locks: &ByPrintedOrder, leave: &[ClientNumber]) -> bool
    ensures { result ≡ stays_known (is_among leave.now) locks.now known.now }
{
    !leave.contains(&known.client) || locks.has_locks(known.client)
}

/// Lists the bytes of a command for each client that stays known, after the others.
pub fn carry_clients(
    clients: &[KnownClient],
    locks: &ByPrintedOrder,
    leave: &[ClientNumber],
    into: &mut Vec<Value>,
)
    requires few { vec_len into.old ≤ LOCKS }
    requires clients { length clients.now ≤ CLIENTS }
    requires room { LOCKS + CLIENTS ≤ vec_capacity into.old }
    ensures commands { into.new.items ≡ into.old.items ++ map (λ k. spelling (carried_client k)) (filter (stays_known (is_among leave.now) locks.now) clients.now) }
    ensures few { vec_len into.new ≤ LOCKS + CLIENTS }
{
    for at in 0..clients.len() {
        let known = &clients[at];
        if stays_known(known, locks, leave) {
            let _ = into.push(client_value(known));
        }
    }
}
