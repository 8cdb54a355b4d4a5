ghost use Rattle.std.specs.Prelude.{◌≡◌, ◌≢◌, ◌+◌, ◌-◌, ◌<◌, ◌≤◌, ℕ, IsTrue, length, slice_index, slice_index_or, true, false};
ghost use Rattle.std.specs.List.{AllWithin};
ghost use Rattle.lock_index.specs.Shelved.{is_through_host};

use lock_command::{HostNumber, LOCKS};
use std::marker::Model;

/// The hosts that locks were enqueued through, by the places of the locks. Beside a place without a lock stands any number.
#[derive(Drop)]
pub struct Hosts {
    by_place: [u8; LOCKS],
}

impl Model for Hosts {
    ghost use Rattle.std.specs.Prelude.{List, ℕ};

    ghost Value = { List ℕ };

    ghost view = { λ hosts. hosts.by_place };
}

impl Hosts {
    /// Before there are locks.
    pub fn new() -> Self {
        Hosts {
            by_place: [0; LOCKS],
        }
    }

    /// Keeps the host of the lock at a place.
    pub fn set(&mut self, place: usize, host: HostNumber)
        requires { place < LOCKS }
        ensures own { slice_index self.new place ≡ host }
        ensures others { (other : ℕ) → other ≢ place → slice_index self.new other ≡ slice_index self.old other }
    {
        self.by_place[place] = host.get();
    }

    /// Whether the lock at this index of an order was enqueued through a host.
    fn is_through(&self, order: &[u8], at: usize, host: HostNumber) -> bool
        requires { at < length order.now }
        ensures { (d : ℕ) → result ≡ is_through_host self.now host (slice_index_or order.now at d) }
    {
        self.by_place[usize::from(order[at])] == host.get()
    }

    /// Whether none of eight locks was enqueued through a host. It tests all of them, without a branch.
    #[inline(always)]
    fn none_of_eight(&self, order: &[u8], from: usize, host: HostNumber) -> bool
        requires { from + 8 ≤ length order.now }
        ensures { IsTrue result → AllWithin (λ place. is_through_host self.now host place ≡ false) order.now from (from + 8) }
    {
        let mut none = true;
        for at in from..from + 8 {
            none &= !self.is_through(order, at, host);
        }
        none
    }

    /// Where a look from a place towards the front goes on, past eight locks at a time that were enqueued through other hosts.
    fn past_eights(&self, order: &[u8], to: usize, host: HostNumber) -> usize
        requires { to ≤ length order.now }
        ensures bound { result ≤ to }
        ensures others { AllWithin (λ place. is_through_host self.now host place ≡ false) order.now result to }
    {
        let mut end = to;
        while end >= 8 {
            if !self.none_of_eight(order, end - 8, host) {
                return end;
            }
            end -= 8;
        }
        end
    }

    /// Where the last lock ends that was enqueued through a host, of those in front of an index of the order. It is 0 if there is none.
    pub fn through_end(&self, order: &[u8], to: usize, host: HostNumber) -> usize
        requires { to ≤ length order.now }
        ensures bound { result ≤ to }
        ensures others { AllWithin (λ place. is_through_host self.now host place ≡ false) order.now result to }
        ensures last { 0 < result → (d : ℕ) → is_through_host self.now host (slice_index_or order.now (result - 1) d) ≡ true }
    {
        let mut end = self.past_eights(order, to, host);
        while end > 0 {
            if self.is_through(order, end - 1, host) {
                return end;
            }
            end -= 1;
        }
        end
    }
}
