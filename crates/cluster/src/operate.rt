ghost use Rattle.std.specs.Prelude.{◌≡◌, ◌⊎◌, ◌<◌, ◌≤◌, ◌+◌, true, false, length, IfOk, IfErr, OnOk, OnErr};
ghost use Rattle.lock_command.specs.Command.{is_submittable};
ghost use Rattle.host.specs.Host.{idles, learned_of};
ghost use Rattle.host.specs.declared.task.Task.TheVariants.{Submit, Recover, Look, Beat, Mark};
ghost use Rattle.world.specs.Entry.{Begin};
ghost use Rattle.world.specs.World.{MayBeGiven};
ghost use Rattle.cluster.specs.Cluster.{GoesOn};
ghost use Rattle.cluster.specs.Looks.{WritesNothing};
ghost use Rattle.cluster.specs.Operations.{Carries, CarriesOne, Fails, HasAnswered, IsAnswer, IsRefusedBy, Operates, Restarts, Stops, said_by};
ghost use Rattle.cluster.specs.Seat.{host_in};

use crate::cluster::Cluster;
use crate::cluster_name::ClusterName;
use crate::fault::HostFault;
use crate::gate::Gate;
use crate::receipt::Receipt;
use crate::seat::HostSeat;
use disk::Disk;
use host::{HostAnswer, Task};
use lock_command::Command;
use std::alloc::Global;
use std::sync::Wait;

/// What an operation gave: a receipt, how many commands were recovered, how many are learned after a look, the host that a beat
/// suggests, or on how many disks the host's block of a slot is marked.
#[derive(Clone, Copy, Debug)]
pub enum Resumed {
    Submitted(Receipt),
    Recovered(u16),
    Looked(u16),
    Beaten(u8),
    Marked(u8),
}

impl<'a, N: ClusterName, D: Disk + Drop> Cluster<'a, N, D> {
    /// Puts a command into the log, and steps until the answer.
    pub fn submit<G: Gate>(
        &self,
        rt: &impl Wait,
        seat: &mut HostSeat<N>,
        gate: &mut G,
        command: Command,
        tries: u8,
    ) -> Result<Receipt, HostFault>
        requires idle { idles (host_in N.shape seat.old) ≡ true }
        requires host { command.host ≡ seat.old.number }
        requires asked { is_submittable command ≡ true }
        requires tries { 1 ≤ tries }
        ensures steps { OnOk result (Operates N.shape (Begin seat.old.number (Submit command tries)) seat.old seat.new) }
        ensures answer { IfOk result (λ receipt. HasAnswered N.shape (Resumed.Submitted receipt) seat.new) }
        ensures command { IfOk result (λ receipt. (receipt.command ≡ command) × (receipt.host ≡ seat.old.number)) }
        ensures err { IfErr result (λ fault. Fails N.shape (Begin seat.old.number (Submit command tries)) fault seat.old seat.new) }
    {
        // Called for its contract only: the command's numbers are in their ranges.
        let _spelling = command.encode();
        match self.carry_out(rt, seat, gate, &Task::Submit { command, tries })? {
            Resumed::Submitted(receipt) => Ok(receipt),
            _ => unreachable!(),
        }
    }

    /// Learns all that is in the log, and tells how many commands these are.
    pub fn recover<G: Gate>(
        &self,
        rt: &impl Wait,
        seat: &mut HostSeat<N>,
        gate: &mut G,
        tries: u8,
    ) -> Result<u16, HostFault>
        requires idle { idles (host_in N.shape seat.old) ≡ true }
        requires tries { 1 ≤ tries }
        ensures steps { OnOk result (Operates N.shape (Begin seat.old.number (Recover tries)) seat.old seat.new) }
        ensures answer { IfOk result (λ n. HasAnswered N.shape (Resumed.Recovered n) seat.new) }
        ensures err { IfErr result (λ fault. Fails N.shape (Begin seat.old.number (Recover tries)) fault seat.old seat.new) }
    {
        match self.carry_out(rt, seat, gate, &Task::Recover { tries })? {
            Resumed::Recovered(length) => Ok(length),
            _ => unreachable!(),
        }
    }

    /// Looks at slot after slot, and learns from each the command that a mark tells. It ends at the first slot where it finds no
    /// mark, and tells how many commands the host has learned. It writes nothing and outruns no host. What was acknowledged and is
    /// not marked, it does not find.
    pub fn look<G: Gate>(
        &self,
        rt: &impl Wait,
        seat: &mut HostSeat<N>,
        gate: &mut G,
    ) -> Result<u16, HostFault>
        requires { idles (host_in N.shape seat.old) ≡ true }
        ensures steps { OnOk result (Operates N.shape (Begin seat.old.number Look) seat.old seat.new) }
        ensures answer { IfOk result (λ n. HasAnswered N.shape (Resumed.Looked n) seat.new) }
        ensures err { IfErr result (λ fault. Fails N.shape (Begin seat.old.number Look) fault seat.old seat.new) }
        ensures writes_nothing { WritesNothing seat.old seat.new }
    {
        match self.carry_out(rt, seat, gate, &Task::Look)? {
            Resumed::Looked(length) => Ok(length),
            _ => unreachable!(),
        }
    }

    /// Writes the host's next heartbeat on the disks and reads those of all hosts, and tells which
    /// host they suggest.
    pub fn beat<G: Gate>(
        &self,
        rt: &impl Wait,
        seat: &mut HostSeat<N>,
        gate: &mut G,
    ) -> Result<u8, HostFault>
        requires { idles (host_in N.shape seat.old) ≡ true }
        ensures steps { OnOk result (Operates N.shape (Begin seat.old.number Beat) seat.old seat.new) }
        ensures answer { IfOk result (λ host. HasAnswered N.shape (Resumed.Beaten host) seat.new) }
        ensures err { IfErr result (λ fault. Fails N.shape (Begin seat.old.number Beat) fault seat.old seat.new) }
    {
        match self.carry_out(rt, seat, gate, &Task::Beat)? {
            Resumed::Beaten(host) => Ok(host),
            _ => unreachable!(),
        }
    }

    /// Marks a slot that the host has learned, so that others learn it in one reading, and tells on
    /// how many disks the host's block is marked then.
    pub fn mark<G: Gate>(
        &self,
        rt: &impl Wait,
        seat: &mut HostSeat<N>,
        gate: &mut G,
        slot: u16,
    ) -> Result<u8, HostFault>
        requires idle { idles (host_in N.shape seat.old) ≡ true }
        requires slot { slot < N.shape.slots }
        ensures steps { OnOk result (Operates N.shape (Begin seat.old.number (Mark slot)) seat.old seat.new) }
        ensures answer { IfOk result (λ count. HasAnswered N.shape (Resumed.Marked count) seat.new) }
        ensures err { IfErr result (λ fault. Fails N.shape (Begin seat.old.number (Mark slot)) fault seat.old seat.new) }
    {
        match self.carry_out(rt, seat, gate, &Task::Mark { slot })? {
            Resumed::Marked(count) => Ok(count),
            _ => unreachable!(),
        }
    }

    /// Goes on with the operation that is under way.
    pub fn resume<G: Gate>(
        &self,
        rt: &impl Wait,
        seat: &mut HostSeat<N>,
        gate: &mut G,
    ) -> Result<Resumed, HostFault>
        requires { idles (host_in N.shape seat.old) ≡ false }
        ensures steps { OnOk result (GoesOn N.shape seat.old seat.new) }
        ensures answer { IfOk result (λ gave. HasAnswered N.shape gave seat.new) }
        ensures err { IfErr result (λ fault. Stops N.shape fault seat.old seat.new) }
    {
        seat.carries_one();
        self.go_on(rt, seat, gate)?;
        outcome(seat)
    }

    /// Stops the host and starts it again. It then knows nothing, and any operation is given up.
    pub fn restart(
        &self,
        rt: &impl Wait,
        alloc: Global,
        seat: &mut HostSeat<N>,
    ) -> Result<(), HostFault>
        ensures ok { OnOk result (Restarts seat.old seat.new) }
        ensures err { OnErr result (seat.new ≡ seat.old) }
        ensures causes { IfErr result (λ fault. (fault ≡ HostFault.JournalFull) ⊎ (fault ≡ HostFault.NoMemory)) }
    {
        self.journal.lock(rt).restart(alloc, seat)
    }

    // Begins a task, and steps until it is over.
    fn carry_out<G: Gate>(
        &self,
        rt: &impl Wait,
        seat: &mut HostSeat<N>,
        gate: &mut G,
        task: &Task,
    ) -> Result<Resumed, HostFault>
        requires idle { idles (host_in N.shape seat.old) ≡ true }
        requires may { MayBeGiven N.shape seat.old.number task.now }
        ensures steps { OnOk result (Operates N.shape (Begin seat.old.number task.now) seat.old seat.new) }
        ensures carried { OnOk result (Carries N.shape task.now seat.new) }
        ensures answer { IfOk result (λ gave. HasAnswered N.shape gave seat.new) }
        ensures its { IfOk result (λ gave. IsAnswer task.now (learned_of (host_in N.shape seat.new)) (said_by gave)) }
        ensures err { IfErr result (λ fault. Fails N.shape (Begin seat.old.number task.now) fault seat.old seat.new) }
        ensures look { task.now ≡ Look → WritesNothing seat.old seat.new }
    {
        self.journal.lock(rt).begin(seat, task)?;
        self.go_on(rt, seat, gate)?;
        outcome(seat)
    }

    // Steps until the operation is over.
    fn go_on<G: Gate>(
        &self,
        rt: &impl Wait,
        seat: &mut HostSeat<N>,
        gate: &mut G,
    ) -> Result<(), HostFault>
        requires { CarriesOne N.shape seat.old }
        ensures steps { OnOk result (GoesOn N.shape seat.old seat.new) }
        ensures idle { OnOk result (idles (host_in N.shape seat.new) ≡ true) }
        ensures err { IfErr result (λ fault. Stops N.shape fault seat.old seat.new) }
    {
        let mut call: u64 = 0;
        for _turn in rt.forever() {
            if seat.idle() {
                return Ok(());
            }
            call = call.saturating_add(1);
            gate.before_call(call);
            self.step(rt, seat)?;
        }
        unreachable!()
    }
}

// What an operation that is over gave.
fn outcome<N: ClusterName>(seat: &HostSeat<N>) -> Result<Resumed, HostFault>
    requires over { idles (host_in N.shape seat.now) ≡ true }
    requires carried { CarriesOne N.shape seat.now }
    ensures answer { IfOk result (λ gave. HasAnswered N.shape gave seat.now) }
    ensures refused { IfErr result (λ fault. IsRefusedBy N.shape fault seat.now) }
{
    match seat.answer() {
        Some(HostAnswer::Ack { .. }) => match seat.acks().last() {
            Some(receipt) => Ok(Resumed::Submitted(*receipt)),
            None => unreachable!(),
        },
        Some(HostAnswer::Recovered { length }) => Ok(Resumed::Recovered(length)),
        Some(HostAnswer::Looked { length }) => Ok(Resumed::Looked(length)),
        Some(HostAnswer::Beaten { host }) => Ok(Resumed::Beaten(host)),
        Some(HostAnswer::Marked { count }) => Ok(Resumed::Marked(count)),
        Some(HostAnswer::Refused(refusal)) => Err(HostFault::Refused(refusal)),
        None => unreachable!(),
    }
}
