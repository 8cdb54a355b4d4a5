ghost use Rattle.std.specs.Prelude.{◌≡◌, ◌≤◌, [], IfOk, vec_capacity};
ghost use Rattle.lock_table.specs.Picture.{nothing_shown, values_beside};
ghost use Rattle.lock_table.specs.Stored.{value_in, AreNamed};

use crate::clients::CLIENTS;
use crate::known_client::KnownClient;
use crate::no_memory::NoMemory;
use crate::table::Table;
use crate::values;
use crate::values::NamedValue;
use lock_command::{LOCKS, LockRecord, LockValue};
use lock_index::ByPrintedOrder;
use std::alloc::Global;
use std::marker::Model;

/// What a table shows at one moment: its locks by name, in a name those that are granted, then those that convert, then
/// those that wait; and its clients by number.
#[derive(Drop)]
pub struct Picture {
    locks: Vec<LockRecord>,
    /// Beside each lock the value of its name.
    values: Vec<LockValue>,
    clients: Vec<KnownClient>,
}

impl Model for Picture {
    ghost use Rattle.std.specs.Prelude.{◌≤◌, vec_capacity};
    ghost use Rattle.lock_table.specs.declared.clients.TheConstants.{CLIENTS};
    ghost use Rattle.lock_command.specs.declared.record.TheConstants.{LOCKS};
    ghost use Rattle.lock_table.specs.Picture.{Shown};

    ghost Value = { Shown };

    ghost view = { λ picture. record { locks = picture.locks.items; values = picture.values.items; clients = picture.clients.items } };

    ghost invariant = { λ picture. (LOCKS ≤ vec_capacity picture.locks) × (LOCKS ≤ vec_capacity picture.values) × (CLIENTS ≤ vec_capacity picture.clients) };
}

impl Picture {
    /// A picture of no locks, with room for those of any table.
    pub fn room(alloc: Global) -> Result<Self, NoMemory>
        ensures empty { IfOk result (λ picture. picture ≡ nothing_shown) }
    {
        Ok(Picture {
            locks: Vec::with_capacity(alloc, LOCKS)?,
            values: Vec::with_capacity(alloc, LOCKS)?,
            clients: Vec::with_capacity(alloc, CLIENTS)?,
        })
    }

    /// Lists what a table shows, in place of what was listed. It takes no memory.
    pub fn fill(&mut self, table: &Table)
        ensures shown { self.new ≡ table.now }
    {
        let plain = table.plain();
        self.locks.clear();
        plain.locks().list(&mut self.locks);
        self.values.clear();
        list_values(plain.locks(), plain.entries(), &mut self.values);
        self.clients.clear();
        let _ = self.clients.extend_from_slice(plain.clients());
    }

    /// The locks, in printed order.
    pub fn locks(&self) -> &[LockRecord]
        ensures locks { result.now ≡ self.now.locks }
    {
        &self.locks
    }

    /// Beside each lock the value of its name.
    pub fn values(&self) -> &[LockValue]
        ensures values { result.now ≡ self.now.values }
    {
        &self.values
    }

    /// The clients, by rising number.
    pub fn clients(&self) -> &[KnownClient]
        ensures clients { result.now ≡ self.now.clients }
    {
        &self.clients
    }
}

/// Lists the value of the name of each lock.
fn list_values(locks: &ByPrintedOrder, entries: &[NamedValue], into: &mut Vec<LockValue>)
    requires room { LOCKS ≤ vec_capacity into.old }
    requires empty { into.old.items ≡ [] }
    requires named { AreNamed entries.now }
    ensures values { into.new.items ≡ values_beside (value_in entries.now) locks.now }
    ensures room { vec_capacity into.old ≤ vec_capacity into.new }
{
    for at in 0..locks.len() {
        let _ = into.push(values::value_in(entries, locks.get(at).name));
    }
}
