ghost use Rattle.std.specs.Prelude.{◌≡◌, ◌≤◌, ◌-◌, ℕ, Some, Option, IfOk, IfErr};
ghost use Rattle.epoch_images.specs.Marking.{MarksFrom, RecoversAndMarks, leaves_a_mark};
ghost use Rattle.epoch_images.specs.Working.{HasWorked, said_by};

use crate::epoch_disk_host::EpochDiskHost;
use crate::fault::EpochFault;
use disk::Disk;
use epoch_host::{EpochAnswer, EpochTask};

/// How many places are learned, and how many the host has marked of those that it learned for this.
#[derive(Clone, Copy, Debug, PartialEq, Eq)]
pub struct MarkedPlaces {
    pub length: u64,
    pub marked: u64,
}

impl<D: Disk> EpochDiskHost<D> {
    /// Learns all that is in the log, and then marks each place that it has learned now, of the newest epoch alone: nobody looks at one before. From then on
    /// looks pass these places. One of them may be the place of a command whose host died between its answer and its mark.
    ///
    /// Up to `tries` attempts on a slot may be outrun, the last of which ends the recovery. If that is refused, nothing is marked. A place that another host
    /// had marked is not counted, nor one whose marking found no majority.
    /// Look first: places that a look learns from marks are then neither recovered nor marked again.
    pub fn recover_and_mark(&mut self, tries: u8) -> Result<MarkedPlaces, EpochFault>
        requires { 1 ≤ tries }
        ensures marked { IfOk result (λ log. (before : ℕ) × RecoversAndMarks D.gives tries before log.length log.marked self.old self.new) }
        ensures refused { IfErr result (λ fault. HasWorked D.gives (EpochTask.Recover tries) (said_by fault) self.old self.new) }
    {
        let before = self.length().unwrap_or(0);
        let length = self.recover(tries)?;
        let first = before.max(self.first_of(length));
        let marked = self.mark_places(first, length);
        Ok(MarkedPlaces { length, marked })
    }

    /// Marks the places from the first one to before the end, and tells on how many of them its mark stands.
    fn mark_places(&mut self, first: u64, end: u64) -> u64
        ensures { MarksFrom D.gives first (end - first) result self.old self.new }
    {
        let mut marked = 0;
        for place in first..end {
            if self.leaves_a_mark(place) {
                marked += 1;
            }
        }
        marked
    }

    /// Marks the place, and tells whether its mark stands on some disk then.
    fn leaves_a_mark(&mut self, place: u64) -> bool
        ensures { (said : Option EpochAnswer) × HasWorked D.gives (EpochTask.Mark place) said self.old self.new × (result ≡ leaves_a_mark said) }
    {
        match self.mark(place) {
            Ok(count) => count > 0,
            Err(_) => false,
        }
    }
}
