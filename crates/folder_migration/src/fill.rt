ghost use Rattle.std.specs.Prelude.{◌≡◌, ◌≤◌, true, IfOk, IfErr, length};
ghost use Rattle.lock_command.specs.Command.{is_submittable};
ghost use Rattle.folder_migration.specs.Filling.{EndsRefused, Fills, IsOldRequest, IsOver, KnowsNobody, StopsFilling, Submits};
ghost use Rattle.folder_migration.specs.declared.fill.FillFault.TheVariants.{NoMemory, Refused};
ghost use Rattle.folder_migration.specs.declared.old_log.TheConstants.{TRIES};

use crate::old_log::TRIES;
use disk::Disk;
use dlm_images::{DiskHost, submit_patiently};
use host::{Config, Refusal};
use lock_command::{Action, Command, LockNumber};
use std::alloc::Global;
use std::random::RandomSource;
use std::time::Clock;
use thiserror::Error;

/// Why a log was not filled.
#[derive(Clone, Copy, Debug, PartialEq, Eq, Error)]
pub enum FillFault {
    #[error("out of memory")]
    NoMemory,
    /// No client has made a request yet that could be made again.
    #[error("no client is known")]
    NoClient,
    /// The log could not be recovered, or a submission was refused.
    #[error("{0}")]
    Refused(Refusal),
}

impl From<lock_table::NoMemory> for FillFault {
    ghost from_gives = { λ _ fault. fault ≡ NoMemory };

    fn from(_: lock_table::NoMemory) -> Self {
        FillFault::NoMemory
    }
}

impl From<Refusal> for FillFault {
    ghost from_gives = { λ of fault. fault ≡ Refused of };

    fn from(refusal: Refusal) -> Self {
        FillFault::Refused(refusal)
    }
}

/// Fills a log up, so that its table is final: the host submits a request that a client made already, again and again. It
/// changes nothing, whatever others submit meanwhile; and no lock, if they have that client forgotten. Gives the number of the slots that
/// it filled.
pub fn fill_log<R: Clock + RandomSource, D: Disk>(
    rt: &R,
    alloc: Global,
    host: &mut DiskHost<D>,
    config: Config,
) -> Result<u16, FillFault>
    requires over { IsOver config host.old }
    ensures filled { IfOk result (λ count. Fills D.gives config.slots count host.old host.new) }
    ensures stopped { IfErr result (StopsFilling D.gives host.old host.new) }
{
    host.recover(TRIES)?;
    let command = old_request(alloc, host)?;
    fill_with(rt, host, &command, config)
}

/// A request that the table's first client made already: the number of its last one, and whether some lock is there.
fn old_request<D: Disk>(alloc: Global, host: &DiskHost<D>) -> Result<Command, FillFault>
    ensures old { IfOk result (IsOldRequest host.now.core.prefix) }
    ensures asked { IfOk result (λ command. is_submittable command ≡ true) }
    ensures host { IfOk result (λ command. command.host ≡ host.now.core.learner.host) }
    ensures none { IfErr result (KnowsNobody host.now.core.prefix) }
{
    let picture = host.table().picture(alloc)?;
    let Some(known) = picture.clients().first() else {
        return Err(FillFault::NoClient);
    };
    Ok(Command {
        host: host.host(),
        client: known.client,
        request: known.request,
        action: Action::Status(first_lock()),
    })
}

fn first_lock() -> LockNumber
    ensures { result ≡ 1 }
{
    match LockNumber::new(1) {
        Some(lock) => lock,
        None => unreachable!(),
    }
}

/// Submits this command until all slots are learned, and tells how often it was acknowledged.
fn fill_with<R: Clock + RandomSource, D: Disk>(
    rt: &R,
    host: &mut DiskHost<D>,
    command: &Command,
    config: Config,
) -> Result<u16, FillFault>
    requires host { command.now.host ≡ host.old.core.learner.host }
    requires asked { is_submittable command.now ≡ true }
    requires over { IsOver config host.old }
    ensures submits { IfOk result (λ count. Submits D.gives command.now host.old count host.new) }
    ensures full { IfOk result (λ count. config.slots ≤ length host.new.core.prefix) }
    ensures refused { IfErr result (λ fault. (refusal : _) × (fault ≡ Refused refusal) × EndsRefused D.gives command.now refusal host.old host.new) }
{
    let slots = config.slots();
    let mut count = 0;
    while host.learned() < slots {
        match submit_patiently(rt, host, *command, TRIES) {
            Ok(_) => count += 1,
            // Others have taken the slots that were left.
            Err(Refusal::LogFull) => {}
            Err(refusal) => return Err(FillFault::Refused(refusal)),
        }
    }
    Ok(count)
}
