ghost use Rattle.std.specs.Prelude.{◌≡◌, ◌*◌, ◌<◌, ◌↔◌, IsTrue, IfSome, IfNone, is_some, length};
ghost use Rattle.std.specs.List.{count_by};
ghost use Rattle.sectors.specs.Owners.{IsAnother, IsMostSaid, IsOwner, NobodyElse, says};

use crate::name::{MachineName, NAME_LENGTH};

/// Whose a host number is.
#[derive(Clone, Copy, Debug, PartialEq, Eq)]
pub enum Owner {
    /// The machine's that asks: it has the number, or may take it.
    Ours,
    /// Another machine's, of this name.
    Others(MachineName),
    /// Too few disks were heard.
    Unheard,
}

/// Whose a host number is, by what each disk of the set says in the sector of that host's heartbeat block. Of a disk that was not
/// heard there is nothing. If two other machines are said by as many disks, either is told.
pub fn owner_of(machine: &MachineName, said: &[Option<MachineName>]) -> Owner
    ensures { IsOwner machine.now said.now result }
{
    if !is_most(heard_in(said), said) {
        return Owner::Unheard;
    }
    match most_said(machine, said) {
        Some(other) if !is_most(count_of(machine, said), said) => Owner::Others(other),
        _ => Owner::Ours,
    }
}

fn is_most(count: usize, said: &[Option<MachineName>]) -> bool
    ensures { IsTrue result ↔ (length said.now < 2 * count) }
{
    count > said.len() / 2
}

fn heard_in(said: &[Option<MachineName>]) -> usize
    ensures { result ≡ count_by is_some said.now }
{
    let mut heard = 0;
    for one in said {
        if one.is_some() {
            heard += 1;
        }
    }
    heard
}

fn count_of(name: &MachineName, said: &[Option<MachineName>]) -> usize
    ensures { result ≡ count_by (says name.now) said.now }
{
    let mut count = 0;
    for one in said {
        if is_said(name, one) {
            count += 1;
        }
    }
    count
}

fn is_said(name: &MachineName, one: &Option<MachineName>) -> bool
    ensures { result ≡ says name.now one.now }
{
    match one {
        Some(other) => other.bytes == name.bytes,
        None => false,
    }
}

// The name of another machine that most disks say.
fn most_said(machine: &MachineName, said: &[Option<MachineName>]) -> Option<MachineName>
    ensures some { IfSome result (IsMostSaid machine.now said.now) }
    ensures none { IfNone result (NobodyElse machine.now said.now) }
{
    let mut most = 0;
    let mut found = None;
    for one in said {
        if let Some(name) = one {
            let count = count_of(name, said);
            if is_another(machine, name) && count > most {
                most = count;
                found = Some(*name);
            }
        }
    }
    found
}

fn is_another(machine: &MachineName, name: &MachineName) -> bool
    ensures { IsTrue result ↔ IsAnother machine.now name.now }
{
    name.bytes != [0; NAME_LENGTH] && name.bytes != machine.bytes
}
