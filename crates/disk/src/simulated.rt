ghost use Rattle.std.specs.Prelude.{◌≡◌, ◌↔◌, ◌+◌, ◌≤◌, ◌<◌, ◌^◌, true, false, Some, None, length, IfOk};
ghost use Rattle.disk.specs.Disk.{Torn, Crashes, lost};
ghost use Rattle.disk.specs.Simulated.{fresh_disk, filling, crashed, items_of, refusal_under, TakesFailure};

use crate::image::Image;
use crate::{Boot, Disk, DiskFault, NoMemory};
use std::alloc::Global;
use std::marker::Model;

/// A disk whose boot number has reached this one crashes no more.
const LAST_BOOT: u64 = 1 << 62;

/// A disk in memory, which fails, tears, crashes and is lost when a test or a script says so. No call after `new` takes
/// memory. Only `crash` and `renew` do work that grows with the disk: they pass its pages. A write or tear takes the time of its
/// bytes, and of the pages that it is the first to touch.
///
/// Where a list of bytes fills positions, the i-th of them in rising order, from 0, takes byte `i mod len` of the list.
#[derive(Drop)]
pub struct SimDisk {
    image: Image,
    boot: u64,
    gone: bool,
    failing: Option<Vec<u8>>,
    failures: u64,
}

impl Model for SimDisk {
    ghost use Rattle.disk.specs.Simulated.{SimState, IsGiven, items_of};

    ghost Value = { SimState };

    ghost view = { λ d. record {
      disk = record {
        bytes = d.image.bytes;
        unsynced = d.image.unsynced;
        boot = d.boot;
        gone = d.gone;
      };
      failing = items_of d.failing;
      failures = d.failures;
    } };

    ghost invariant = { λ d. record {
      given : IsGiven (items_of d.failing);
    } };
}

impl SimDisk {
    /// A disk of `size` zeros.
    pub fn new(alloc: Global, size: u64) -> Result<SimDisk, NoMemory>
        ensures fresh { IfOk result (λ d. d ≡ record { disk = fresh_disk size; failing = None; failures = 0 }) }
        ensures size { IfOk result (λ d. length d.disk.bytes ≡ size) }
        ensures boot { IfOk result (λ d. d.disk.boot ≡ 1) }
    {
        Ok(SimDisk {
            image: Image::new(alloc, size as usize)?,
            boot: 1,
            gone: false,
            failing: None,
            failures: 0,
        })
    }

    /// Makes the disk one of zeros again, as `new` gave it. It takes no memory, and writes no zeros: the room of the disk is used anew.
    pub fn renew(&mut self)
        ensures fresh { self.new ≡ record { disk = fresh_disk (length self.old.disk.bytes); failing = None; failures = 0 } }
    {
        self.image.clear();
        self.boot = 1;
        self.gone = false;
        self.failing = None;
        self.failures = 0;
    }

    /// The present boot number.
    pub fn boot(&self) -> u64
        ensures { result ≡ self.now.disk.boot }
    {
        self.boot
    }

    /// Whether the disk is lost.
    pub fn is_lost(&self) -> bool
        ensures { result ≡ self.now.disk.gone }
    {
        self.gone
    }

    /// Whether the disk may crash: it is there, and its boot number is not the last one.
    pub fn may_crash(&self) -> bool
        ensures { result ≡ true ↔ (self.now.disk.gone ≡ false) × (self.now.disk.boot < 2 ^ 62) }
    {
        !self.gone && self.boot < LAST_BOOT
    }

    /// The next call that is not refused fails. If it is a write, its range takes the given bytes.
    pub fn fail_next(&mut self, given: Vec<u8>)
        requires { 0 < length given.items }
        ensures { self.new ≡ record self.old { failing = Some given.items } }
    {
        self.failing = Some(given);
    }

    /// A write of `len` bytes is cut short, as where its host stops within it: its range takes the given bytes.
    pub fn tear(&mut self, at: u64, len: u64, given: &[u8])
        requires range { at + len ≤ length self.old.disk.bytes }
        requires given { 0 < length given.now }
        ensures exact { self.new ≡ record self.old { disk = filling self.old.disk at len given.now } }
        ensures torn { Torn at len self.old.disk self.new.disk }
        ensures size { length self.new.disk.bytes ≡ length self.old.disk.bytes }
    {
        self.image.fill(at as usize, len as usize, given);
    }

    /// The disk loses power and comes up again: its unsynced positions take the given bytes.
    pub fn crash(&mut self, given: &[u8])
        requires given { 0 < length given.now }
        requires boot { self.old.disk.boot < 2 ^ 62 }
        ensures exact { self.new ≡ record self.old { disk = crashed self.old.disk given.now } }
        ensures crashes { Crashes self.old.disk self.new.disk }
        ensures size { length self.new.disk.bytes ≡ length self.old.disk.bytes }
    {
        self.image.fill_unsynced(given);
        self.image.settle();
        self.boot += 1;
    }

    /// The disk is lost, until it is made anew.
    pub fn lose(&mut self)
        ensures { self.new ≡ record self.old { disk = lost self.old.disk } }
    {
        self.gone = true;
    }
}

impl SimDisk {
    // Why a call under this boot number is refused, if it is.
    fn refusal(&self, boot: u64) -> Option<DiskFault>
        ensures { result ≡ refusal_under self.now.disk boot }
    {
        if self.gone {
            Some(DiskFault::Gone)
        } else if boot != self.boot {
            Some(DiskFault::Reset)
        } else {
            None
        }
    }

    // Takes the failure that was asked for, and counts it.
    fn take_failure(&mut self) -> Option<Vec<u8>>
        ensures { TakesFailure self.old (items_of result) self.new }
    {
        let given = self.failing.take();
        if given.is_some() {
            self.failures = self.failures.saturating_add(1);
        }
        given
    }
}

impl Disk for SimDisk {
    ghost use Rattle.std.specs.Prelude.{◌≡◌, refl};
    ghost use Rattle.disk.specs.Disk.{device_of};
    ghost use Rattle.disk.specs.Simulated.{outcome};

    ghost state = { λ d. d.disk };

    ghost device = { λ d. device_of d.disk };

    ghost failures = { λ d. d.failures };

    // The disk and the call decide what is answered and what the disk is afterwards.
    ghost gives = { λ old call answer new. (new, answer) ≡ outcome old call };

    ghost told = { λ d tells. refl };

    fn size(&self) -> u64 {
        self.image.len() as u64
    }

    fn attach(&mut self) -> Result<Boot, DiskFault> {
        if let Some(fault) = self.refusal(self.boot) {
            return Err(fault);
        }
        match self.take_failure() {
            None => Ok(Boot { number: self.boot }),
            Some(_) => Err(DiskFault::Failed),
        }
    }

    fn read(&mut self, boot: Boot, at: u64, into: &mut [u8]) -> Result<(), DiskFault> {
        if let Some(fault) = self.refusal(boot.number) {
            return Err(fault);
        }
        match self.take_failure() {
            None => {
                self.image.read(at as usize, into);
                Ok(())
            }
            Some(_) => Err(DiskFault::Failed),
        }
    }

    fn write(&mut self, boot: Boot, at: u64, from: &[u8]) -> Result<(), DiskFault> {
        if let Some(fault) = self.refusal(boot.number) {
            return Err(fault);
        }
        match self.take_failure() {
            None => {
                self.image.overwrite(at as usize, from);
                Ok(())
            }
            Some(given) => {
                self.tear(at, from.len() as u64, &given);
                Err(DiskFault::Failed)
            }
        }
    }

    fn sync(&mut self, boot: Boot) -> Result<(), DiskFault> {
        if let Some(fault) = self.refusal(boot.number) {
            return Err(fault);
        }
        match self.take_failure() {
            None => {
                self.image.settle();
                Ok(())
            }
            Some(_) => Err(DiskFault::Failed),
        }
    }
}
