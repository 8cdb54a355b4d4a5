ghost use Rattle.std.specs.Prelude.{◌≡◌, ◌<◌, ◌≤◌, [], IfOk, IfSome, None, find, length, if◌then◌else◌};
ghost use Rattle.lock_table.specs.Apply.{applied, carried_out, forgotten_by, is_client, kept, keeps_none, kept_after, unchanged};
ghost use Rattle.lock_table.specs.Known.{IsPlaceOf};
ghost use Rattle.lock_index.specs.Printed.{printed_cmp};
ghost use Rattle.lock_table.specs.Picture.{client_cmp, HasZeros};
ghost use Rattle.lock_index.specs.Placed.{in_order};
ghost use Rattle.lock_table.specs.Stored.{plain_of, value_in, AreNamed};

use crate::clients::{CLIENTS, Clients};
use crate::known_client::KnownClient;
use crate::reply::{is_forgotten, refusing};
use crate::valued::ValuedLocks;
use crate::values::NamedValue;
use lock_command::{Action, Answer, ClientNumber, Command, Refusal, Reply};
use lock_index::ByPrintedOrder;
use std::alloc::{AllocError, Global};
use std::marker::Model;

/// The locks in printed order, and the known clients by number. Contracts see them as a plain table.
#[derive(Drop)]
pub struct IndexedTable {
    valued: ValuedLocks,
    clients: Clients,
}

impl Model for IndexedTable {
    ghost use Rattle.lock_table.specs.Stored.{Kept};

    ghost Value = { Kept };

    ghost view = { λ table. record { locks = table.valued.locks; entries = table.valued.entries; clients = table.clients } };
}

impl IndexedTable {
    /// A table without locks and clients, with room for all that it may ever have.
    pub fn new(alloc: Global) -> Result<Self, AllocError>
        ensures { IfOk result (λ table. table ≡ record { locks = []; entries = []; clients = [] }) }
    {
        Ok(IndexedTable {
            valued: ValuedLocks::new(alloc)?,
            clients: Clients::new(alloc)?,
        })
    }

    /// The reply to a command that is not carried out: its client repeats a request, or comes with an older one, or would be
    /// one too many.
    #[tactic(auto, unfolding(crate::specs::Apply::applied))]
    fn reply_without_it(&self, place: usize, command: &Command) -> Option<Reply>
        requires { IsPlaceOf command.now.client self.now.clients place }
        ensures unchanged { IfSome result (λ reply. applied (plain_of self.now) command.now ≡ unchanged (plain_of self.now) reply) }
        ensures carried_out { result ≡ None → applied (plain_of self.now) command.now ≡ carried_out (plain_of self.now) command.now }
        ensures room { result ≡ None → find (is_client command.now.client) self.now.clients ≡ None → length self.now.clients < CLIENTS }
    {
        match self.clients.get(place, command.client) {
            None if self.clients.is_full() => Some(refusing(Refusal::ClientsFull)),
            Some(last) if command.request.get() < last.request.get() => {
                Some(refusing(Refusal::Stale))
            }
            Some(last) if command.request == last.request => Some(last.reply),
            _ => None,
        }
    }

    /// Carries a command out, unless its client repeats a request.
    pub fn apply(&mut self, command: &Command) -> Reply
        requires printed { in_order printed_cmp self.old.locks ≡ self.old.locks }
        requires zeros { HasZeros self.old.locks (value_in self.old.entries) }
        requires by_number { in_order client_cmp self.old.clients ≡ self.old.clients }
        ensures locks { self.new.locks ≡ in_order printed_cmp (applied (plain_of self.old) command.now).table.locks }
        ensures values { value_in self.new.entries ≡ (applied (plain_of self.old) command.now).table.values }
        ensures clients { self.new.clients ≡ in_order client_cmp (applied (plain_of self.old) command.now).table.clients }
        ensures zeros { HasZeros self.new.locks (value_in self.new.entries) }
        ensures reply { result ≡ (applied (plain_of self.old) command.now).reply }
    {
        let place = self.clients.place_of(command.client);
        if let Some(reply) = self.reply_without_it(place, command) {
            return reply;
        }
        let reply = self
            .valued
            .act(command.host, command.client, &command.action);
        keep_after(
            &mut self.clients,
            place,
            &command.action,
            known(command, &reply),
        );
        reply
    }

    /// The locks in printed order.
    pub fn locks(&self) -> &ByPrintedOrder
        ensures locks { result.now ≡ self.now.locks }
    {
        self.valued.printed()
    }

    /// The names under which something was stored, rising.
    pub fn entries(&self) -> &[NamedValue]
        ensures entries { result.now ≡ self.now.entries }
        ensures named { AreNamed self.now.entries }
    {
        self.valued.entries()
    }

    pub fn clients(&self) -> &[KnownClient]
        ensures clients { result.now ≡ self.now.clients }
        ensures few { length result.now ≤ CLIENTS }
    {
        self.clients.known()
    }
}

/// Whether nothing is kept of the command's client: a lock is carried over.
fn keeps_none(action: &Action) -> bool
    ensures { result ≡ keeps_none action.now }
{
    matches!(action, Action::CarryLock { .. })
}

/// The client that a command forgets that was answered so.
fn forgotten_by(action: &Action, answer: &Answer) -> Option<ClientNumber>
    ensures { result ≡ forgotten_by action.now answer.now }
{
    match action {
        Action::Forget(gone) if is_forgotten(answer) => Some(*gone),
        _ => None,
    }
}

/// Keeps the last request of a command's client, unless nothing is kept of it.
fn keep_last(clients: &mut Clients, place: usize, action: &Action, last: KnownClient)
    requires place { IsPlaceOf last.client clients.old place }
    requires room { find (is_client last.client) clients.old ≡ None → length clients.old < CLIENTS }
    requires by_number { in_order client_cmp clients.old ≡ clients.old }
    ensures { clients.new ≡ in_order client_cmp (if keeps_none action.now then clients.old else kept clients.old last) }
{
    if !keeps_none(action) {
        clients.keep(place, last);
    }
}

/// Keeps the last request of a command's client, and takes out that of a client that the command forgets.
fn keep_after(clients: &mut Clients, place: usize, action: &Action, last: KnownClient)
    requires place { IsPlaceOf last.client clients.old place }
    requires room { find (is_client last.client) clients.old ≡ None → length clients.old < CLIENTS }
    requires by_number { in_order client_cmp clients.old ≡ clients.old }
    ensures { clients.new ≡ in_order client_cmp (kept_after action.now clients.old last) }
{
    keep_last(clients, place, action, last);
    if let Some(gone) = forgotten_by(action, &last.reply.answer) {
        clients.forget(gone);
    }
}

/// What is kept of a command's client.
fn known(command: &Command, reply: &Reply) -> KnownClient
    ensures { result ≡ record { client = command.now.client; request = command.now.request; reply = reply.now } }
{
    KnownClient {
        client: command.client,
        request: command.request,
        reply: *reply,
    }
}
