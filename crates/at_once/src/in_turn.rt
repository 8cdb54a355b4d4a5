ghost use Rattle.std.specs.Prelude.{◌≡◌, ◌≢◌, ◌≤◌, ℕ, true, Some, None, IfOk, length, replicate, slice_get};
ghost use Rattle.disk.specs.Simulated.{SimState, fresh_disk};
ghost use Rattle.lock_command.specs.Command.{is_submittable};
ghost use Rattle.torn_block.specs.Layout.{cluster_version};
ghost use Rattle.paxos_block.specs.Places.{image_length};
ghost use Rattle.at_once.specs.InTurn.{HasSubmitted};

use disk::{NoMemory, SimDisk};
use dlm_images::{Acknowledgement, DiskHost};
use host::{Config, Refusal};
use lock_command::Command;
use std::alloc::Global;

/// How two submissions ended.
#[derive(Clone, Copy, Debug, PartialEq, Eq)]
pub struct Turns {
    pub first: Result<Acknowledgement, Refusal>,
    pub second: Result<Acknowledgement, Refusal>,
}

/// Two hosts work in turn over the same simulated disks, which hold nothing at first: each starts, and submits its command with so
/// many tries.
pub fn submit_in_turn(
    alloc: Global,
    config: Config,
    first: Command,
    second: Command,
    tries: u8,
) -> Result<Turns, NoMemory>
    requires hosts { first.host ≢ second.host }
    requires tries { 1 ≤ tries }
    requires first_asked { is_submittable first ≡ true }
    requires second_asked { is_submittable second ≡ true }
    // Two commands have two slots.
    ensures apart { IfOk result (λ turns. IfOk turns.first (λ one. IfOk turns.second (λ other. one.slot ≡ other.slot → first ≡ second))) }
{
    let disks = fresh_disks(alloc, config)?;
    let one = submit_alone(alloc, config, disks, first, tries)?;
    let Turn { done, disks } = one;
    let other = submit_alone(alloc, config, disks, second, tries)?;
    Ok(Turns {
        first: done,
        second: other.done,
    })
}

/// How a submission ended, and the disks after it.
#[derive(Drop)]
struct Turn {
    done: Result<Acknowledgement, Refusal>,
    disks: Vec<SimDisk>,
}

/// A command's host starts over these disks, submits it, and gives them back.
fn submit_alone(
    alloc: Global,
    config: Config,
    disks: Vec<SimDisk>,
    command: Command,
    tries: u8,
) -> Result<Turn, NoMemory>
    requires tries { 1 ≤ tries }
    requires asked { is_submittable command ≡ true }
    requires as_many { length disks.items ≡ config.disks }
    requires large { (k : ℕ) (d : SimState) → slice_get disks.items k ≡ Some d →
        image_length cluster_version config.slots ≤ length d.disk.bytes }
    ensures submitted { IfOk result (λ turn. HasSubmitted config command tries disks.items turn.done turn.disks.items) }
    ensures as_many { IfOk result (λ turn. length turn.disks.items ≡ config.disks) }
    ensures large { IfOk result (λ turn. (k : ℕ) (d : SimState) → slice_get turn.disks.items k ≡ Some d →
        image_length cluster_version config.slots ≤ length d.disk.bytes) }
{
    // Called for its contract only: the host's number is in its range.
    let _number = command.host.get();
    let mut host = DiskHost::start(alloc, command.host, config, disks)?;
    let done = host.submit(command, tries);
    let disks = host.into_disks();
    Ok(Turn { done, disks })
}

/// As many disks as the log has, each with an image of zeros.
fn fresh_disks(alloc: Global, config: Config) -> Result<Vec<SimDisk>, NoMemory>
    ensures { IfOk result (λ disks. disks.items ≡
        replicate config.disks (record { disk = fresh_disk (image_length cluster_version config.slots); failing = None; failures = 0 })) }
{
    let count = usize::from(config.disks());
    let mut disks = Vec::with_capacity(alloc, count)?;
    for _ in 0..count {
        disks.push_reserved(SimDisk::new(alloc, config.image_length())?);
    }
    Ok(disks)
}
