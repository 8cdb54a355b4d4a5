// What carries a table over into the next epoch.
ghost use Rattle.std.specs.Prelude.{◌≡◌, IfOk, Some, length, map};
ghost use Rattle.lock_command.specs.Command.{spelling};
ghost use Rattle.lock_command.specs.Reading.{decoded};
ghost use Rattle.lock_table.specs.Carrying.{carried_client, carried_lock, carried_locks, carried_over};
ghost use Rattle.epoch_host.specs.Leading.{AreSpelled};

use disk::NoMemory;
use lock_command::{Action, Command, HostNumber, LockRecord, LockValue, RequestNumber, Value};
use lock_table::{KnownClient, Table};
use std::alloc::Global;

/// The bytes of the commands that carry a table over. Each of these commands is what its bytes read as.
pub fn carried_over(alloc: Global, table: &Table) -> Result<Vec<Value>, NoMemory>
    requires beside { length table.now.values ≡ length table.now.locks }
    ensures bytes { IfOk result (λ values. values.items ≡ map spelling (carried_over table.now)) }
    ensures spelled { IfOk result (λ values. AreSpelled (carried_over table.now)) }
{
    // The numbers of a table are in their ranges, which its picture shows.
    let Ok(picture) = table.picture(alloc) else {
        return Err(NoMemory);
    };
    locks_read_back(picture.locks(), picture.values());
    clients_read_back(picture.clients());
    match table.carried_over(alloc, &[]) {
        Ok(values) => Ok(values),
        Err(_) => Err(NoMemory),
    }
}

// Called for its contract only, as are those below.
fn locks_read_back(locks: &[LockRecord], values: &[LockValue])
    requires beside { length values.now ≡ length locks.now }
    ensures { AreSpelled (carried_locks locks.now values.now) }
{
    for at in 0..locks.len() {
        lock_reads_back(&locks[at], &values[at]);
    }
}

fn clients_read_back(clients: &[KnownClient])
    ensures { AreSpelled (map carried_client clients.now) }
{
    for at in 0..clients.len() {
        client_reads_back(&clients[at]);
    }
}

fn lock_reads_back(own: &LockRecord, value: &LockValue)
    ensures { decoded (spelling (carried_lock own.now value.now)) ≡ Some (carried_lock own.now value.now) }
{
    let _bytes = carry_lock(own, value).encode();
}

fn client_reads_back(known: &KnownClient)
    ensures { decoded (spelling (carried_client known.now)) ≡ Some (carried_client known.now) }
{
    let _bytes = carry_client(known).encode();
}

fn carry_lock(own: &LockRecord, value: &LockValue) -> Command
    ensures { result ≡ carried_lock own.now value.now }
{
    let Some(request) = RequestNumber::new(1) else {
        unreachable!()
    };
    Command {
        host: own.host,
        client: own.client,
        request,
        action: Action::CarryLock {
            lock: own.lock,
            name: own.name,
            state: own.state,
            value: *value,
        },
    }
}

fn carry_client(known: &KnownClient) -> Command
    ensures { result ≡ carried_client known.now }
{
    let Some(host) = HostNumber::new(0) else {
        unreachable!()
    };
    Command {
        host,
        client: known.client,
        request: known.request,
        action: Action::CarryClient(known.reply),
    }
}
