ghost use Rattle.std.specs.Prelude.{◌≡◌, ◌≤◌, All, IfOk, length, vec_len};
ghost use Rattle.disk.specs.Cut.{cut};
ghost use Rattle.disk.specs.Disk.{device_of};
ghost use Rattle.disk.specs.Simulated.{fresh_disk};
ghost use Rattle.torn_block.specs.Layout.{cluster_version};
ghost use Rattle.paxos_block.specs.Places.{image_length};

use cluster::Config;
use disk::{Boot, Disk, DiskFault, NoMemory, SimDisk, larger_disks_serve};
use std::alloc::{AllocError, Global};
use std::sync::atomic::{AtomicBool, Ordering};
use std::thread;
use std::time::{Clock, Duration};

/// The bytes behind the image of a disk.
const MORE: u64 = 4096;

/// What the two disks of a pair tell one another.
#[derive(Drop)]
pub struct Flags {
    /// A call of disk 1 has begun.
    pub begun: AtomicBool,
    /// Disk 0 was called while that call went on.
    pub met: AtomicBool,
    /// That call has waited in vain.
    pub late: AtomicBool,
}

impl Flags {
    pub fn new() -> Flags {
        Flags {
            begun: AtomicBool::new(false),
            met: AtomicBool::new(false),
            late: AtomicBool::new(false),
        }
    }
}

/// Waits until the flag is set, at most ten thousand turns of a millisecond.
pub fn is_set<R: Clock>(rt: &R, flag: &AtomicBool) -> bool {
    for _ in 0..10_000 {
        if flag.load(Ordering::SeqCst) {
            return true;
        }
        thread::sleep(rt, Duration::from_millis(1));
    }
    false
}

/// One of two simulated disks. The first call of disk 1 goes on until disk 0 is called.
#[derive(Drop)]
pub struct PairDisk<'a, R: Clock> {
    disk: SimDisk,
    rt: &'a R,
    flags: &'a Flags,
    is_first: bool,
}

impl<R: Clock> PairDisk<'_, R> {
    fn meet(&self) {
        if self.is_first {
            if self.flags.begun.load(Ordering::SeqCst) {
                self.flags.met.store(true, Ordering::SeqCst);
            }
        } else if !self.flags.begun.swap(true, Ordering::SeqCst) {
            let met = is_set(self.rt, &self.flags.met);
            self.flags.late.store(!met, Ordering::SeqCst);
        }
    }
}

impl<R: Clock> Disk for PairDisk<'_, R> {
    ghost use Rattle.std.specs.Prelude.{refl};

    ghost state = { λ d. d.disk.disk };

    ghost device = { λ d. device_of d.disk.disk };

    ghost failures = { λ d. d.disk.failures };

    ghost told = { λ d tells. refl };

    fn size(&self) -> u64 {
        self.disk.size()
    }

    fn attach(&mut self) -> Result<Boot, DiskFault> {
        self.meet();
        self.disk.attach()
    }

    fn read(&mut self, boot: Boot, at: u64, into: &mut [u8]) -> Result<(), DiskFault> {
        self.meet();
        self.disk.read(boot, at, into)
    }

    fn write(&mut self, boot: Boot, at: u64, from: &[u8]) -> Result<(), DiskFault> {
        self.meet();
        self.disk.write(boot, at, from)
    }

    fn sync(&mut self, boot: Boot) -> Result<(), DiskFault> {
        self.meet();
        self.disk.sync(boot)
    }
}

/// Two disks of zeros, disk 0 first, each larger than an image.
pub fn pair<'a, R: Clock>(
    rt: &'a R,
    alloc: Global,
    config: Config,
    flags: &'a Flags,
) -> Result<Vec<PairDisk<'a, R>>, NoMemory>
    ensures two { IfOk result (λ disks. vec_len disks ≡ 2) }
    ensures large { IfOk result (λ disks.
        All (λ d. image_length cluster_version config.slots ≤ length d.disk.disk.bytes) disks.items) }
    ensures fresh { IfOk result (λ disks.
        All (λ d. cut (image_length cluster_version config.slots) d.disk.disk ≡
        fresh_disk (image_length cluster_version config.slots)) disks.items) }
{
    let first = pair_disk(rt, alloc, config, flags, true)?;
    let second = pair_disk(rt, alloc, config, flags, false)?;
    let mut disks = Vec::new(alloc);
    disks.push(first).map_err(AllocError::from)?;
    disks.push(second).map_err(AllocError::from)?;
    Ok(disks)
}

fn pair_disk<'a, R: Clock>(
    rt: &'a R,
    alloc: Global,
    config: Config,
    flags: &'a Flags,
    is_first: bool,
) -> Result<PairDisk<'a, R>, NoMemory>
    ensures large { IfOk result (λ d. image_length cluster_version config.slots ≤ length d.disk.disk.bytes) }
    ensures fresh { IfOk result (λ d. cut (image_length cluster_version config.slots) d.disk.disk ≡
        fresh_disk (image_length cluster_version config.slots)) }
{
    larger_disks_serve();
    Ok(PairDisk {
        disk: SimDisk::new(alloc, config.image_length() + MORE)?,
        rt,
        flags,
        is_first,
    })
}
