ghost use Rattle.std.specs.Prelude.{◌≡◌, ◌<◌, ℕ, List, length, max, None, IfOk, IsErr, option_map, if◌then◌else◌, ◌↔◌};
ghost use Rattle.std.specs.Option.{IsSomeAnd, option_or};
ghost use Rattle.torn_block.specs.Layout.{hosts_in, row_length};
ghost use Rattle.paxos_block.specs.Gist.{IsGist};
ghost use Rattle.paxos_block.specs.Row.{decoded_row, blank_cell};
ghost use Rattle.paxos_block.specs.Saying.{said_as};
ghost use Rattle.paxos_block.specs.Votes.{later_of, marked};

use crate::block::PBlock;
use crate::cell::{Cell, is_blank, read_cell};
use crate::damaged::Damaged;
use crate::row::block_of;
use torn_block::Layout;

/// What an attempt of a host needs of the blocks of all hosts for one slot, as they were read from one disk.
#[derive(Debug, PartialEq, Eq, Drop)]
pub struct Gist<V> {
    /// The host's own block.
    pub own: Cell<V>,
    /// The greatest mbal of all hosts.
    pub greatest: u64,
    /// The greatest mbal of all hosts but this one.
    pub others: u64,
    /// The latest among a vote that was found before and those of all hosts but this one: of several with one bal the
    /// first.
    pub latest: PBlock<V>,
    /// The input of the first marked block, by host.
    pub marked: Option<V>,
}

impl<V: Copy> Gist<V> {
    // That of no block at all, beside a vote.
    #[inline(always)]
    fn of_none(best: &PBlock<V>) -> Gist<V>
        ensures { result ≡ record { own = blank_cell; greatest = 0; others = 0; latest = best.now; marked = None } }
    {
        Gist {
            own: Cell::blank(),
            greatest: 0,
            others: 0,
            latest: *best,
            marked: None,
        }
    }

    // Takes one block more, the host's own or another's.
    #[inline(always)]
    fn take(&mut self, is_own: bool, cell: &Cell<V>)
        ensures own { self.new.own ≡ (if is_own then cell.now else self.old.own) }
        ensures greatest { self.new.greatest ≡ max self.old.greatest cell.now.says.mbal }
        ensures others { self.new.others ≡ (if is_own then self.old.others else max self.old.others cell.now.says.mbal) }
        ensures latest { (spelled : V → List ℕ) → said_as spelled self.new.latest
            ≡ (if is_own then said_as spelled self.old.latest else later_of (said_as spelled self.old.latest) (said_as spelled cell.now.says)) }
        ensures marked { (spelled : V → List ℕ) → option_map spelled self.new.marked
            ≡ option_or (option_map spelled self.old.marked) (marked (said_as spelled cell.now.says)) }
    {
        self.greatest = self.greatest.max(cell.says.mbal);
        if self.marked.is_none() {
            self.marked = cell.says.marked();
        }
        if is_own {
            self.own = *cell;
            return;
        }
        self.others = self.others.max(cell.says.mbal);
        if self.latest.bal < cell.says.bal {
            self.latest = cell.says;
        }
    }
}

/// What these bytes of a row say to an attempt of this host, which has found this vote before. It is damaged where
/// `decode_row` finds it so.
#[inline(always)]
pub fn read_gist<L: Layout>(
    bytes: &[u8],
    host: u8,
    best: &PBlock<L::Value>,
) -> Result<Gist<L::Value>, Damaged>
    requires long { length bytes.now ≡ row_length L.version }
    requires host { host < hosts_in L.version }
    ensures unsaid { IsErr result ↔ (decoded_row L.version bytes.now ≡ None) }
    ensures said { IfOk result (λ gist. IsSomeAnd (decoded_row L.version bytes.now)
        (λ seen. IsGist L.version L.spelled host (said_as L.spelled best.now) seen gist)) }
{
    let mut gist = Gist::of_none(best);
    for g in 0..L::HOSTS {
        let block = block_of::<L>(bytes, g);
        if is_blank::<L>(block) {
            continue;
        }
        let cell = read_cell::<L>(g as u8, block)?;
        gist.take(g == usize::from(host), &cell);
    }
    Ok(gist)
}
