ghost use Rattle.std.specs.Prelude.{◌≡◌, ◌≤◌, ◌<◌, ◌^◌, ◌↔◌, None, IfOk, IfErr, IfSome, IsSome, IsTrue, OnOk, slice_index, true};
ghost use Rattle.std.specs.Option.{SomeIff, option_map};
ghost use Rattle.torn_block.specs.Layout.{cluster_version};
ghost use Rattle.attempt.specs.DeviceCalls.{device_answer, heard_of};
ghost use Rattle.attempt.specs.Heard.{Fits};
ghost use Rattle.lock_command.specs.declared.number.TheConstants.{HOSTS};
ghost use Rattle.epoch_host.specs.Walking.{MayBegin, call_due};
ghost use Rattle.c_host.specs.Numbers.{done, no_memory};
ghost use Rattle.c_epochs.specs.Calls.{LiesWithin, ReadsOnly, answer_on, is_away};
ghost use Rattle.c_epochs.specs.Images.{IsOfEndingLog, IsOpened, MayRefuse};
ghost use Rattle.c_epochs.specs.Steps.{Begins, CallsNext, GoesOn, HasAttached, Hears, IsAttachDue, IsSameFolder, Looks, Marks, Recovers, Submits, TellsNext, TellsStand};
ghost use Rattle.c_epochs.specs.Told.{answer_told, status_told};

use crate::answer::{PlacedAnswer, status_told};
use crate::call::{WrittenBlock, away, is_before, tell};
use crate::images::{found_in, told_of};
use attempt::{DeviceCall, Heard};
use c_host::{
    BAD_ARGUMENT, BUSY, DueCall, Fault, Images, NOTHING_DUE, Opened, Request, Row, ToldAnswer,
    host_of,
};
use disk::{Boot, DiskFault, NoMemory};
use endless_image::Kind;
use epoch_host::{EpochHost, EpochTask};
use log_folders::{first_epochs, set_of_any};
use paxos_block::Config;
use std::alloc::Global;
use torn_block::DISKS;

/// A host over all epochs and the numbers of its folder, as C keeps them between calls.
#[derive(Drop)]
pub struct OpenEpochs {
    pub host: EpochHost,
    /// Its slots are those of an epoch.
    pub config: Config,
    pub cluster: u64,
    /// Of each disk the first epoch in which it takes part, 0 where its image is not used.
    pub firsts: [u64; DISKS as usize],
}

impl OpenEpochs {
    /// A host over these images, which knows of no epoch yet, and what C is to know of the images. None if they are of a log that ends. To a host that only
    /// looks the number says nothing: no block is written.
    pub fn open(
        alloc: Global,
        images: &Images,
        number: u32,
        only_looks: bool,
    ) -> Result<Option<(OpenEpochs, Opened)>, Fault>
        ensures opened { IfOk result (λ opened. IfSome opened (λ made. IsOpened images.now number only_looks made.0 made.1)) }
        ensures ending { IfOk result (λ opened. opened ≡ None → IsOfEndingLog images.now) }
        ensures numbered { OnOk result (number < HOSTS) }
        ensures refused { IfErr result (MayRefuse images.now number) }
    {
        let Some(number) = host_of(number) else {
            return Err(Fault::BadArgument);
        };
        let found = found_in(images);
        let set = set_of_any(&found)?;
        match set.kind {
            Kind::Ending => Ok(None),
            Kind::Endless => {
                let host = if only_looks {
                    EpochHost::to_look(alloc, number, set.config)
                } else {
                    EpochHost::new(alloc, number, set.config)
                };
                let host = OpenEpochs {
                    host,
                    config: set.config,
                    cluster: set.cluster,
                    firsts: first_epochs(&found),
                };
                Ok(Some((host, told_of(&found, set.config))))
            }
        }
    }

    /// Begins to put the command into the log that is asked.
    pub fn submit(&mut self, request: &Request, name: &[u8], tries: u32) -> i32
        ensures { Submits request.now name.now tries self.old self.new result }
    {
        if !self.host.idle() {
            return BUSY;
        }
        let Some(tries) = tries_of(tries) else {
            return BAD_ARGUMENT;
        };
        let Some(command) = request.command(self.host.host(), name) else {
            return BAD_ARGUMENT;
        };
        // Called for its contract only: the command's numbers are in their ranges.
        let _spelled = command.encode();
        self.begin(EpochTask::Submit { command, tries })
    }

    /// Begins to learn all that is in the log.
    pub fn recover(&mut self, tries: u32) -> i32
        ensures { Recovers tries self.old self.new result }
    {
        if !self.host.idle() {
            return BUSY;
        }
        let Some(tries) = tries_of(tries) else {
            return BAD_ARGUMENT;
        };
        self.begin(EpochTask::Recover { tries })
    }

    /// Begins to learn what marks tell.
    pub fn look(&mut self) -> i32
        ensures { Looks self.old self.new result }
    {
        if !self.host.idle() {
            return BUSY;
        }
        self.begin(EpochTask::Look)
    }

    /// Begins to mark a place.
    pub fn mark(&mut self, place: u64) -> i32
        ensures { Marks place self.old self.new result }
    {
        if !self.host.idle() {
            return BUSY;
        }
        self.begin(EpochTask::Mark { place })
    }

    fn begin(&mut self, task: EpochTask) -> i32
        requires idle { self.old.host.task ≡ None }
        requires may { MayBegin self.old.host.host task }
        ensures begins { Begins task self.old.host self.new.host }
        ensures told { TellsStand self.new.host result }
        ensures same { IsSameFolder self.old self.new }
    {
        number_of(self.host.begin(task))
    }

    /// Gives the device call that is due. An attach never reaches C: it is answered here, with this boot number, and the call after
    /// it is given. Of a disk that takes no part yet in the epoch no call is made, and C is told so.
    pub fn call(&mut self, boot: u64, call: &mut DueCall, written: &mut WrittenBlock) -> i32
        ensures next { CallsNext boot self.old self.new call.new written.old.bytes written.new.bytes result }
        ensures within { result ≡ done → LiesWithin self.new.host.config call.new }
        ensures reads { self.old.host.only_looks ≡ true → result ≡ done → ReadsOnly call.new }
    {
        if self.host.idle() {
            *call = DueCall::none();
            return NOTHING_DUE;
        }
        if self.is_attach_due() {
            let status = self.attach(boot);
            if status != 0 {
                *call = DueCall::none();
                return status;
            }
        }
        self.due(call, written)
    }

    /// Hears what the device call that is due was answered, and tells the next.
    pub fn next(
        &mut self,
        told: &ToldAnswer,
        row: &Row,
        call: &mut DueCall,
        written: &mut WrittenBlock,
    ) -> i32
        ensures next { GoesOn told.now row.now.bytes self.old self.new call.new written.old.bytes written.new.bytes result }
        ensures within { result ≡ done → LiesWithin self.new.host.config call.new }
        ensures reads { self.old.host.only_looks ≡ true → result ≡ done → ReadsOnly call.new }
    {
        let status = self.hear(told, row);
        if status != 0 {
            *call = DueCall::none();
            return status;
        }
        self.call(told.boot, call, written)
    }

    fn hear(&mut self, told: &ToldAnswer, row: &Row) -> i32
        ensures { Hears told.now row.now.bytes self.old self.new result }
    {
        if self.host.idle() {
            return NOTHING_DUE;
        }
        let Some(heard) = self.heard(told, row) else {
            return BAD_ARGUMENT;
        };
        number_of(self.host.hear(&heard))
    }

    /// The answer to the call that is due. A disk that takes no part yet fails, whatever C says.
    fn heard<'a>(&self, told: &ToldAnswer, row: &'a Row) -> Option<Heard<'a>>
        requires { IsSome self.now.host.task }
        ensures told { option_map device_answer result ≡ answer_on self.now.firsts self.now.host told.now row.now.bytes }
        ensures fits { IfSome result (λ heard. Fits (call_due self.now.host).1 (heard_of cluster_version heard)) }
    {
        if self.is_away() {
            Some(Heard::Fault(DiskFault::Failed))
        } else {
            told.heard(&self.host.call().call, row)
        }
    }

    fn is_attach_due(&self) -> bool
        requires { IsSome self.now.host.task }
        ensures { IsTrue result ↔ IsAttachDue self.now }
    {
        match self.host.call().call {
            DeviceCall::Attach => !self.is_away(),
            _ => false,
        }
    }

    /// Whether the disk of the call that is due takes no part yet in the epoch where the host is.
    fn is_away(&self) -> bool
        requires { IsSome self.now.host.task }
        ensures { result ≡ is_away self.now.firsts self.now.host }
    {
        let disk = self.host.call().disk;
        is_before(self.host.epoch(), self.first_of(disk))
    }

    /// The first epoch in which a disk takes part.
    fn first_of(&self, disk: u8) -> u64
        ensures { result ≡ slice_index self.now.firsts disk }
    {
        match self.firsts.get(usize::from(disk)) {
            Some(first) => *first,
            None => 0,
        }
    }

    /// Hears that the disk which is to be attached answered with this boot number.
    fn attach(&mut self, boot: u64) -> i32
        requires { IsAttachDue self.old }
        ensures { HasAttached boot self.old self.new result }
    {
        let booted = Heard::Booted(Boot { number: boot });
        number_of(self.host.hear(&booted))
    }

    fn due(&self, call: &mut DueCall, written: &mut WrittenBlock) -> i32
        ensures next { TellsNext self.now call.new written.old.bytes written.new.bytes result }
        ensures within { result ≡ done → LiesWithin self.now.host.config call.new }
        ensures reads { self.now.host.only_looks ≡ true → result ≡ done → ReadsOnly call.new }
    {
        if self.host.idle() {
            *call = DueCall::none();
            return NOTHING_DUE;
        }
        let need = self.host.call();
        if self.is_away() {
            *call = away(need.disk);
            return 0;
        }
        tell(&need, call, written)
    }

    /// Tells how the last task ended.
    pub fn answer(&self, answer: &mut PlacedAnswer) -> i32
        ensures answer { answer.new ≡ answer_told self.now.host.said }
        ensures status { result ≡ status_told self.now.host.said }
    {
        let said = self.host.answer();
        *answer = PlacedAnswer::told(said);
        status_told(said)
    }
}

/// 0 where the host went on, else the number of what it lacked.
fn number_of(went: Result<(), NoMemory>) -> i32
    ensures ok { IfOk went (λ _. result ≡ done) }
    ensures err { IfErr went (λ _. result ≡ no_memory) }
{
    match went {
        Ok(()) => 0,
        Err(_) => Fault::NoMemory.number(),
    }
}

/// How often a task may be outrun, if it may be so often.
fn tries_of(tries: u32) -> Option<u8>
    ensures { SomeIff result ((1 ≤ tries) × (tries < 2 ^ 8)) tries }
{
    match u8::try_from(tries) {
        Ok(tries) if tries >= 1 => Some(tries),
        _ => None,
    }
}
