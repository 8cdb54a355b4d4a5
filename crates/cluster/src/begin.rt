ghost use Rattle.std.specs.Prelude.{◌≡◌, ◌↔◌, ◌≤◌, ◌+◌, ◌++◌, ◌∷◌, [], true, Err, OnOk, OnErr, IfErr, ◌⊎◌, length};
ghost use Rattle.host.specs.Host.{idles};
ghost use Rattle.world.specs.Entry.{Begin};
ghost use Rattle.world.specs.Plain.{plain};
ghost use Rattle.world.specs.World.{world, MayBeGiven, MayFollow};
ghost use Rattle.cluster_tie.specs.Parts.{adds, of_host};
ghost use Rattle.cluster.specs.Seat.{host_in, submitted_by};
ghost use Rattle.cluster.specs.declared.journal.TheConstants.{MOST};

use crate::cluster_name::ClusterName;
use crate::fault::HostFault;
use crate::journal::{Journal, has_room};
use crate::seat::HostSeat;
use cluster_tie::{HostTie, TiedEntry};
use host::Task;
use lock_command::{Command, HostNumber};
use std::marker::Brand;
use world::Entry;

impl<'a, N: ClusterName> Journal<'a, N> {
    // The host begins to carry out a task.
    pub(crate) fn begin(&mut self, seat: &mut HostSeat<N>, task: &Task) -> Result<(), HostFault>
        requires idle { idles (host_in N.shape seat.old) ≡ true }
        requires may { MayBeGiven N.shape seat.old.number task.now }
        ensures seat { OnOk result (seat.new ≡ adds seat.old (length self.old.log) (Begin seat.old.number task.now)) }
        ensures journal { OnOk result (self.new ≡ record self.old { log = self.old.log ++ Begin seat.old.number task.now ∷ [] }) }
        ensures unchanged { OnErr result ((seat.new ≡ seat.old) × (self.new ≡ self.old)) }
        ensures full { result ≡ Err HostFault.JournalFull ↔ MOST ≤ length self.old.log + self.old.promised }
        ensures causes { IfErr result (λ fault. (fault ≡ HostFault.JournalFull) ⊎ (fault ≡ HostFault.NoMemory)) }
    {
        let host = seat.core.host();
        self.keep::<Brand>(&mut seat.tie, host, task)?;
        seat.core.begin(*task);
        seat.submitting = command_of(task);
        Ok(())
    }

    // Keeps the entry with which a host begins, if there is room for it.
    fn keep<E: TiedEntry>(
        &mut self,
        tie: &mut HostTie<N>,
        host: HostNumber,
        task: &Task,
    ) -> Result<(), HostFault>
        requires entry { E.entry ≡ Begin tie.old.number task.now }
        requires host { host ≡ tie.old.number }
        requires may { tie.old.entries ≡ of_host tie.old.number self.old.log → MayFollow N.shape (world N.shape self.old.log) E.entry }
        ensures tie { OnOk result (tie.new ≡ adds tie.old (length self.old.log) E.entry) }
        ensures journal { OnOk result (self.new ≡ record self.old { log = self.old.log ++ E.entry ∷ [] }) }
        ensures unchanged { OnErr result ((tie.new ≡ tie.old) × (self.new ≡ self.old)) }
        ensures full { result ≡ Err HostFault.JournalFull ↔ MOST ≤ length self.old.log + self.old.promised }
        ensures causes { IfErr result (λ fault. (fault ≡ HostFault.JournalFull) ⊎ (fault ≡ HostFault.NoMemory)) }
    {
        has_room(&mut self.entries, self.promised)?;
        self.ties.append_host::<E>(&mut self.tie, tie);
        self.entries.push_reserved(entry_of(host, task));
        Ok(())
    }
}

// The entry with which a host begins a task.
fn entry_of(host: HostNumber, task: &Task) -> Entry
    ensures { result ≡ plain (Begin host task.now) }
{
    match *task {
        Task::Submit { command, tries } => Entry::Submit {
            host,
            command,
            tries,
        },
        Task::Recover { tries } => Entry::Recover { host, tries },
        Task::Look => Entry::Look(host),
        Task::Beat => Entry::Beat(host),
        Task::Mark { slot } => Entry::Mark { host, slot },
    }
}

// The command that a task submits.
fn command_of(task: &Task) -> Option<Command>
    ensures { result ≡ submitted_by task.now }
{
    match *task {
        Task::Submit { command, .. } => Some(command),
        _ => None,
    }
}
