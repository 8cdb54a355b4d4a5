ghost use Rattle.std.specs.Prelude.{◌≡◌, ◌-◌, ◌++◌, ◌∷◌, [], Some, None, length};
ghost use Rattle.world.specs.Plain.{kind_of};
ghost use Rattle.torn_block.specs.Layout.{cluster_version};
ghost use Rattle.attempt.specs.DeviceCalls.{device_call_of};
ghost use Rattle.cluster_tie.specs.Parts.{adds};
ghost use Rattle.cluster.specs.Book.{answer_in, disk_in, Makes};
ghost use Rattle.cluster.specs.Commit.{called_by};

use crate::book::DiskBook;
use crate::cluster_name::ClusterName;
use crate::journal::{Journal, Promise};
use crate::seat::{HostSeat, hear};
use crate::touched::Touched;
use attempt::DeviceCall;
use cluster_tie::TiedEntry;
use disk::Disk;
use std::marker::Brand;
use world::{CallKind, Entry};

/// Puts the open call of a book into the journal, and lets the host hear its answer. Takes no memory.
pub fn commit_step<N: ClusterName, D: Disk>(
    journal: &mut Journal<'_, N>,
    book: &mut DiskBook<N, D>,
    seat: &mut HostSeat<N>,
    promise: Promise<N>,
    touched: Touched,
)
    requires pending { book.old.open_call ≡ Some touched.outcome }
    requires made { Makes N.shape seat.old book.old.own.number (answer_in touched.outcome book.old.row) (disk_in N.shape book.old.own) book.old.disk }
    ensures journal { journal.new ≡ record { log = journal.old.log ++ called_by N.shape seat.old book.old touched.outcome ∷ []; promised = journal.old.promised - 1 } }
    ensures book { book.new ≡ record book.old { own = adds book.old.own (length journal.old.log) (called_by N.shape seat.old book.old touched.outcome); open_call = None } }
    ensures seat { seat.new ≡ adds seat.old (length journal.old.log) (called_by N.shape seat.old book.old touched.outcome) }
{
    commit_as::<Brand, N, D>(journal, book, seat, promise, touched)
}

fn commit_as<E: TiedEntry, N: ClusterName, D: Disk>(
    journal: &mut Journal<'_, N>,
    book: &mut DiskBook<N, D>,
    seat: &mut HostSeat<N>,
    promise: Promise<N>,
    touched: Touched,
)
    requires told { E.entry ≡ called_by N.shape seat.old book.old touched.outcome }
    requires pending { book.old.open_call ≡ Some touched.outcome }
    requires made { Makes N.shape seat.old book.old.own.number (answer_in touched.outcome book.old.row) (disk_in N.shape book.old.own) book.old.disk }
    ensures journal { journal.new ≡ record { log = journal.old.log ++ E.entry ∷ []; promised = journal.old.promised - 1 } }
    ensures book { book.new ≡ record book.old { own = adds book.old.own (length journal.old.log) E.entry; open_call = None } }
    ensures seat { seat.new ≡ adds seat.old (length journal.old.log) E.entry }
{
    let Touched { outcome } = touched;
    let Promise { mut share } = promise;
    journal.promises.sub(&mut share, 1);
    journal.pool.merge(share);
    journal.promised -= 1;
    let entry = Entry::Called {
        host: seat.core.host(),
        disk: book.number,
        call: kind(&seat.core.call().call),
        fault: outcome.fault(),
    };
    let place = count(&journal.entries);
    journal
        .ties
        .append::<E>(&mut journal.tie, &mut book.tie, &mut seat.tie);
    journal.entries.push_reserved(entry);
    let heard = outcome.heard(&book.row);
    hear(
        &mut seat.core,
        &mut seat.acks,
        seat.submitting,
        &heard,
        place,
    );
    book.open_call = None;
}

// The kind of a device call.
fn kind(call: &DeviceCall<'_>) -> CallKind
    ensures { result ≡ kind_of (device_call_of cluster_version call.now) }
{
    match call {
        DeviceCall::Attach => CallKind::Attach,
        DeviceCall::Read { .. } => CallKind::Read,
        DeviceCall::Write { .. } => CallKind::Write,
        DeviceCall::Sync { .. } => CallKind::Sync,
    }
}

// How many entries there are.
fn count(entries: &Vec<Entry>) -> usize
    ensures { result ≡ length entries.now.items }
{
    entries.len()
}
