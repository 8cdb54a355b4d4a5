ghost use Rattle.std.specs.Prelude.{◌≡◌, ◌≤◌, ◌-◌, ◌*◌, ℕ, Some, IfOk, IfErr, length};
ghost use Rattle.dlm_images.specs.Marking.{HasMarkedFrom, RecoversAndMarks, leaves_a_mark};
ghost use Rattle.dlm_images.specs.Operations.{HasMarked};

use crate::disk_host::DiskHost;
use disk::Disk;
use host::{HostAnswer, Refusal};

/// How many commands are learned, and how many slots the host has marked of those that it learned for this.
#[derive(Clone, Copy, Debug, PartialEq, Eq)]
pub struct MarkedLog {
    pub length: u16,
    pub marked: u16,
}

impl<D: Disk> DiskHost<D> {
    /// Learns all that is in the log, and then marks each slot that it has learned now. From then on looks pass these slots. One of
    /// them may be the slot of a command whose host died between its answer and its mark.
    ///
    /// Up to `tries` attempts may be outrun, the last of which ends the recovery. If it is refused, the slots that it learned before
    /// are marked all the same. A slot that another host had marked is not counted, nor one whose marking found no majority.
    /// Look first: slots that a look learns from marks are then neither recovered nor marked again.
    pub fn recover_and_mark(&mut self, tries: u8) -> Result<MarkedLog, Refusal>
        requires { 1 ≤ tries }
        ensures marked { IfOk result (λ log. (done : RecoversAndMarks D.gives tries log.marked self.old self.new) ×
            (done.recovered.core.said ≡ Some (HostAnswer.Recovered log.length))) }
        ensures learned { IfOk result (λ log. log.length ≡ length self.new.core.prefix) }
        // What the recovery was refused with; what was learned before is marked.
        ensures refused { IfErr result (λ refusal. (marked : ℕ) × ((done : RecoversAndMarks D.gives tries marked self.old self.new) ×
            (done.recovered.core.said ≡ Some (HostAnswer.Refused refusal)))) }
    {
        let first = self.learned();
        let recovered = self.recover(tries);
        let end = self.learned();
        let marked = self.mark_slots(first, end);
        match recovered {
            Ok(length) => Ok(MarkedLog { length, marked }),
            Err(refusal) => Err(refusal),
        }
    }

    /// Marks the slots from the first one to before the end, and tells on how many of them its mark stands.
    fn mark_slots(&mut self, first: u16, end: u16) -> u16
        requires { first ≤ end }
        ensures { HasMarkedFrom D.gives first (end - first) result self.old self.new }
    {
        let mut marked = 0;
        for slot in first..end {
            if self.leaves_a_mark(slot) {
                marked += 1;
            }
        }
        marked
    }

    /// Marks the slot, and tells whether its mark stands on some disk then.
    fn leaves_a_mark(&mut self, slot: u16) -> bool
        ensures marked { HasMarked D.gives slot self.old self.new }
        ensures kept { self.new.core.prefix ≡ self.old.core.prefix }
        ensures calls { (done : HasMarked D.gives slot self.old self.new) → length done.made ≤ 9 * length self.old.disks }
        ensures told { result ≡ leaves_a_mark self.new.core.said }
    {
        match self.mark(slot) {
            Ok(count) => count > 0,
            Err(_) => false,
        }
    }
}
