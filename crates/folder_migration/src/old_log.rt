ghost use Rattle.std.specs.Prelude.{◌≡◌, ◌<◌, ◌≤◌, [], false, None, Some, IfOk, IfErr, length, vec_capacity};
ghost use Rattle.torn_block.specs.Layout.{Version1};
ghost use Rattle.torn_block.specs.declared.layout.TheConstants.{DISKS, SLOTS};
ghost use Rattle.slot_log.specs.Kept.{LeadsTo, IsSameLog, is_idle, offered_of};
ghost use Rattle.slot_log.specs.Learning.{fresh, goes_on};
ghost use Rattle.slot_log.specs.declared.operation.Operation.TheVariants.{Recovering};
ghost use Rattle.folder_migration.specs.declared.old_log.TheConstants.{TRIES};
ghost use Rattle.folder_migration.specs.Recovery.{AreLarge, HasEnded, MakesOne, JudgesOne, RecoversTo, IsRefused};

use crate::fault::MoveFault;
use disk::Disk;
use dlm_images::answer_among;
use lock_command::{OldValue, Value, decode_old, upgrade};
use paxos_block::Config;
use slot_log::{Learner, LogOutcome};
use std::alloc::Global;
use torn_block::{DISKS, Layout, Layout1, SLOTS};

/// How often the recovery may be outrun.
pub const TRIES: u8 = 8;

// The bytes of a row.
const ROW: usize = 2 * Layout1::HOSTS * Layout1::COPY_LENGTH;

/// No recovery has more steps: each of its attempts makes 17 calls a disk at most, and then a value that it found may be judged.
/// Each attempt learns a slot, or uses one of the tries, or is the last.
const MOST_STEPS: u32 = (SLOTS + TRIES as u32) * (17 * DISKS as u32 + 1);

/// Learns all that is in a log of the first layout, as host 0, and gives the bytes of what stands for each command today.
pub fn recover_log<D: Disk>(
    alloc: Global,
    config: Config,
    disks: &mut [D],
) -> Result<Vec<Value>, MoveFault>
    requires as_many { length disks.old ≡ config.disks }
    requires large { AreLarge D.device config.slots disks.old }
    ensures recovered { IfOk result (λ log. RecoversTo D.gives config disks.old disks.new log.items) }
    ensures room { IfOk result (λ log. length log.items ≤ config.slots) }
    ensures refused { IfErr result (IsRefused D.gives config disks.old disks.new) }
{
    let mut learner = Learner::<Layout1>::new(alloc, 0, config)?;
    let mut log = Vec::with_capacity(alloc, usize::from(config.slots()))?;
    learner.recover(TRIES);
    drive(&mut learner, &mut log, disks);
    match learner.said() {
        Some(LogOutcome::Recovered { .. }) => Ok(log),
        Some(LogOutcome::Refused(refusal)) => Err(MoveFault::Refused(refusal)),
        _ => unreachable!(),
    }
}

/// Makes the calls of a recovery on its disks, and judges each value that it finds, until it has ended.
fn drive<D: Disk>(learner: &mut Learner<Layout1>, log: &mut Vec<Value>, disks: &mut [D])
    requires begun { LeadsTo Version1 learner.old.shape 0 (goes_on learner.old.shape fresh Recovering TRIES) learner.old }
    requires empty { log.old.items ≡ [] }
    requires room { learner.old.shape.slots ≤ vec_capacity log.old }
    requires as_many { length disks.old ≡ learner.old.shape.disks }
    requires few { (learner.old.shape.disks ≤ DISKS) × (learner.old.shape.slots ≤ SLOTS) }
    requires large { AreLarge D.device learner.old.shape.slots disks.old }
    ensures ended { HasEnded D.gives learner.old.shape disks.old disks.new learner.new.learned log.new.items learner.new.said }
    ensures fits { length log.new.items ≤ learner.old.shape.slots }
{
    let mut row = [0; ROW];
    for _done in 0..MOST_STEPS {
        if learner.idle() {
            return;
        }
        match learner.offered() {
            Some(value) => judge(learner, log, &value),
            None => call(learner, disks, &mut row),
        }
    }
}

/// Makes the call that is due.
fn call<D: Disk>(learner: &mut Learner<Layout1>, disks: &mut [D], row: &mut [u8; ROW])
    requires busy { is_idle learner.old ≡ false }
    requires judged { offered_of learner.old ≡ None }
    requires as_many { length disks.old ≡ learner.old.shape.disks }
    requires large { AreLarge D.device learner.old.shape.slots disks.old }
    ensures made { MakesOne D.gives learner.old disks.old learner.new disks.new }
    ensures same { IsSameLog learner.old learner.new }
    ensures large { AreLarge D.device learner.old.shape.slots disks.new }
{
    let need = learner.call();
    let heard = answer_among::<Layout1, D>(disks, &need, row);
    learner.hear(&heard);
}

/// Says whether the value that was found is a command, and adds what stands for it to the log.
fn judge(learner: &mut Learner<Layout1>, log: &mut Vec<Value>, value: &OldValue)
    requires waits { offered_of learner.old ≡ Some value.now }
    requires room { length log.old.items < vec_capacity log.old }
    ensures judged { JudgesOne value.now learner.old learner.new log.old.items log.new.items }
    ensures shape { learner.new.shape ≡ learner.old.shape }
    ensures capacity { vec_capacity log.new ≡ vec_capacity log.old }
{
    match decode_old(value) {
        Some(command) => {
            log.push_reserved(upgrade(&command).encode());
            learner.take(true);
        }
        None => learner.take(false),
    }
}
