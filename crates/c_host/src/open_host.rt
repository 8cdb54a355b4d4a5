ghost use Rattle.std.specs.Prelude.{◌≡◌, ◌≤◌, ◌<◌, ◌^◌, ◌↔◌, None, false, IsTrue, IfOk, IfErr, IfSome, OnOk};
ghost use Rattle.std.specs.Option.{SomeIff};
ghost use Rattle.disk.specs.Disk.{Attach};
ghost use Rattle.torn_block.specs.Layout.{cluster_version};
ghost use Rattle.attempt.specs.DeviceCalls.{call_of_need};
ghost use Rattle.lock_command.specs.declared.number.TheConstants.{HOSTS};
ghost use Rattle.host.specs.Kept.{due_call, is_idle};
ghost use Rattle.c_host.specs.Images.{IsOpened, MayRefuse};
ghost use Rattle.c_host.specs.Steps.{Submits, Recovers, Looks, Marks, IsAttachDue, HasAttached, TellsCallDue, TellsNext, CallsNext, HasHeardTold, HearsNothing, GoesOn};
ghost use Rattle.c_host.specs.Told.{answer_told, status_told};

use crate::answer::{Answer, status_told};
use crate::call::{DueCall, Row, ToldAnswer, Written};
use crate::fault::{BAD_ARGUMENT, BUSY, Fault, NO_ROOM, NOTHING_DUE};
use crate::images::{Images, Opened, found_in, told_of};
use crate::request::{Request, host_of};
use attempt::{DeviceCall, Heard, Need};
use disk::Boot;
use folders::set_of;
use host::{Config, HostCore};
use std::alloc::Global;

/// A host and the numbers of its folder, as C keeps them between calls.
#[derive(Drop)]
pub struct OpenHost {
    pub core: HostCore,
    pub config: Config,
    pub cluster: u64,
}

impl OpenHost {
    /// A host over these images, which has learned nothing yet, and what C is to know of the images.
    pub fn open(alloc: Global, images: &Images, number: u32) -> Result<(OpenHost, Opened), Fault>
        ensures opened { IfOk result (λ made. IsOpened images.now number made.0 made.1) }
        ensures numbered { OnOk result (number < HOSTS) }
        ensures refused { IfErr result (MayRefuse images.now number None) }
    {
        let Some(number) = host_of(number) else {
            return Err(Fault::BadArgument);
        };
        let found = found_in(images);
        let set = set_of(&found)?;
        let core = HostCore::start(alloc, number, set.config)?;
        let host = OpenHost {
            core,
            config: set.config,
            cluster: set.cluster,
        };
        Ok((host, told_of(&found, set.config)))
    }

    /// Begins to put the command into the log that is asked.
    pub fn submit(&mut self, request: &Request, name: &[u8], tries: u32) -> i32
        ensures { Submits request.now name.now tries self.old self.new result }
    {
        if !self.core.idle() {
            return BUSY;
        }
        let (Some(tries), Some(command)) = (
            tries_of(tries),
            request.command(self.core.host(), name),
        ) else {
            return BAD_ARGUMENT;
        };
        // Called for its contract only: the command's numbers are in their ranges.
        let _spelled = command.encode();
        self.core.submit(command, tries);
        0
    }

    /// Begins to learn all that is in the log.
    pub fn recover(&mut self, tries: u32) -> i32
        ensures { Recovers tries self.old self.new result }
    {
        if !self.core.idle() {
            return BUSY;
        }
        let Some(tries) = tries_of(tries) else {
            return BAD_ARGUMENT;
        };
        self.core.recover(tries);
        0
    }

    /// Begins to learn what marks tell.
    pub fn look(&mut self) -> i32
        ensures { Looks self.old self.new result }
    {
        if !self.core.idle() {
            return BUSY;
        }
        self.core.look();
        0
    }

    /// Begins to mark a slot.
    pub fn mark(&mut self, slot: u32) -> i32
        ensures { Marks slot self.old self.new result }
    {
        if !self.core.idle() {
            return BUSY;
        }
        let Ok(slot) = u16::try_from(slot) else {
            return BAD_ARGUMENT;
        };
        self.core.mark(slot);
        0
    }

    /// Gives the device call that is due. An attach never reaches C: it is answered here, with this boot number, and the call after
    /// it is given.
    // Inlined: else each answer would save and restore registers twice.
    #[inline(always)]
    pub fn call(&mut self, boot: u64, call: &mut DueCall, written: &mut Written) -> i32
        ensures { CallsNext boot self.old self.new call.new written.old.bytes written.new.bytes result }
    {
        if self.core.idle() {
            *call = DueCall::none();
            return NOTHING_DUE;
        }
        // An attach is handled apart, so that for every other call the due call is looked up only once.
        if self.is_attach_due() {
            self.attach(boot);
            return self.due(call, written);
        }
        tell(&self.core.call(), call, written)
    }

    /// Hears what the device call that is due was answered, and tells the next.
    pub fn next(
        &mut self,
        told: &ToldAnswer,
        row: &Row,
        call: &mut DueCall,
        written: &mut Written,
    ) -> i32
        ensures { GoesOn told.now row.now.bytes self.old self.new call.new written.old.bytes written.new.bytes result }
    {
        match self.hear(told, row) {
            Ok(()) => self.call(told.boot, call, written),
            Err(status) => {
                *call = DueCall::none();
                status
            }
        }
    }

    fn hear(&mut self, told: &ToldAnswer, row: &Row) -> Result<(), i32>
        ensures heard { IfOk result (λ _. HasHeardTold told.now row.now.bytes self.old self.new) }
        ensures nothing { IfErr result (HearsNothing told.now row.now.bytes self.old self.new) }
    {
        if self.core.idle() {
            return Err(NOTHING_DUE);
        }
        let Some(heard) = told.heard(&self.core.call().call, row) else {
            return Err(BAD_ARGUMENT);
        };
        self.core.hear(&heard);
        Ok(())
    }

    fn is_attach_due(&self) -> bool
        requires { is_idle self.now.core ≡ false }
        ensures { IsTrue result ↔ ((due_call self.now.core).1 ≡ Attach) }
    {
        match self.core.call().call {
            DeviceCall::Attach => true,
            _ => false,
        }
    }

    /// Hears that the disk which is to be attached answered with this boot number.
    fn attach(&mut self, boot: u64)
        requires { IsAttachDue self.old.core }
        ensures { HasAttached boot self.old self.new }
    {
        // Called for its contract only: the attach is the host's next call.
        let _ = self.core.call();
        let booted = Heard::Booted(Boot { number: boot });
        self.core.hear(&booted);
    }

    fn due(&self, call: &mut DueCall, written: &mut Written) -> i32
        ensures { TellsNext self.now call.new written.old.bytes written.new.bytes result }
    {
        if self.core.idle() {
            *call = DueCall::none();
            return NOTHING_DUE;
        }
        tell(&self.core.call(), call, written)
    }

    /// Tells how the last operation ended.
    pub fn answer(&self, answer: &mut Answer) -> i32
        ensures answer { answer.new ≡ answer_told self.now.core.said }
        ensures status { result ≡ status_told self.now.core.said }
    {
        let said = self.core.answer();
        *answer = Answer::told(said);
        status_told(said)
    }
}

/// Tells a call, unless it writes more bytes than there is room for.
fn tell(need: &Need<'_>, call: &mut DueCall, written: &mut Written) -> i32
    ensures { TellsCallDue (call_of_need cluster_version need.now) call.new written.old.bytes written.new.bytes result }
{
    match DueCall::of(need, written) {
        Some(due) => {
            *call = due;
            0
        }
        None => {
            *call = DueCall::none();
            NO_ROOM
        }
    }
}

/// How often an operation may be outrun, if it may be so often.
fn tries_of(tries: u32) -> Option<u8>
    ensures { SomeIff result ((1 ≤ tries) × (tries < 2 ^ 8)) tries }
{
    match u8::try_from(tries) {
        Ok(tries) if tries >= 1 => Some(tries),
        _ => None,
    }
}
