ghost use Rattle.std.specs.Prelude.{◌≡◌, ◌↔◌, ◌<◌, ℕ, List, true, length, replicate, None, Contains, IfOk, OnOk, IsErr, option_map};
ghost use Rattle.std.specs.Option.{IsSomeAnd};
ghost use Rattle.torn_block.specs.Damage;
ghost use Rattle.torn_block.specs.Layout.{hosts_in, block_length, row_length, cluster_version};
ghost use Rattle.paxos_block.specs.Damage.{AreDamagedBlocks, damaged_in};
ghost use Rattle.paxos_block.specs.Row.{IsRow, IsDamagedRow, DecodedBlock, decoded_row, seen_at, IsSeenAs, AreSeenAs, blank_cell};
ghost use Rattle.torn_block.specs.declared.layout.TheConstants.{HOSTS, HOSTS_ROOM};
ghost use Rattle.torn_block.specs.Layout.{Version};
ghost use Rattle.paxos_block.specs.Saying.{said_as};
ghost use Rattle.paxos_block.specs.Votes.{highest_mbal, highest_mbal_of_others, latest_in, marked_in};

use crate::block::PBlock;
use crate::cell::{Cell, is_blank, is_damaged_block, read_cell};
use crate::damaged::Damaged;
use torn_block::{BLOCK_LENGTH, ClusterLayout, HOSTS, HOSTS_ROOM, Layout, ROW_LENGTH};

/// The blocks of all hosts for one slot, as they were read from one disk.
#[derive(Debug, PartialEq, Eq, Drop)]
pub struct Row<V> {
    /// By the hosts' numbers; that of a host that there is not is blank.
    pub cells: [Cell<V>; HOSTS_ROOM],
}

impl<V: Copy> Row<V> {
    /// No host has a block.
    #[inline(always)]
    pub fn blank() -> Row<V>
        ensures { result ≡ record { cells = replicate HOSTS_ROOM blank_cell } }
    {
        Row {
            cells: [Cell::blank(); HOSTS_ROOM],
        }
    }

    /// A host's block.
    pub fn cell(&self, host: u8) -> &Cell<V>
        requires { host < HOSTS_ROOM }
        ensures { (v : Version) (spelled : V → List ℕ) (seen : List DecodedBlock) →
            AreSeenAs v spelled seen self.now → IsSeenAs v spelled (seen_at seen host) result.now }
    {
        &self.cells[usize::from(host)]
    }

    /// The greatest mbal of all hosts.
    pub fn greatest_mbal(&self) -> u64
        ensures { (v : Version) (spelled : V → List ℕ) (seen : List DecodedBlock) →
            AreSeenAs v spelled seen self.now → result ≡ highest_mbal v seen }
    {
        let mut greatest = 0;
        for g in 0..HOSTS_ROOM {
            greatest = greatest.max(self.cells[g].says.mbal);
        }
        greatest
    }

    /// The greatest mbal of all hosts but this one.
    pub fn others_mbal(&self, host: u8) -> u64
        ensures { (v : Version) (spelled : V → List ℕ) (seen : List DecodedBlock) →
            AreSeenAs v spelled seen self.now → result ≡ highest_mbal_of_others v host seen }
    {
        let mut top = 0;
        for other in 0..HOSTS_ROOM {
            if other != usize::from(host) {
                top = top.max(self.cells[other].says.mbal);
            }
        }
        top
    }

    /// The latest among a vote and those of all hosts but this one: of several with one bal the first, and `best`
    /// before all.
    pub fn latest_vote(&self, host: u8, best: PBlock<V>) -> PBlock<V>
        ensures { (v : Version) (spelled : V → List ℕ) (seen : List DecodedBlock) →
            AreSeenAs v spelled seen self.now →
            said_as spelled result ≡ latest_in v host seen (said_as spelled best) }
    {
        let mut best = best;
        for g in 0..HOSTS_ROOM {
            if g != usize::from(host) {
                best = best.or_later(&self.cells[g].says);
            }
        }
        best
    }

    /// The input of the first marked block, by host.
    pub fn marked(&self) -> Option<V>
        ensures { (v : Version) (spelled : V → List ℕ) (seen : List DecodedBlock) →
            AreSeenAs v spelled seen self.now → option_map spelled result ≡ marked_in v seen }
    {
        // Most rows have no mark, so nothing is copied on the way to one.
        for g in 0..HOSTS_ROOM {
            if let Some(value) = self.cells[g].says.marked() {
                return Some(value);
            }
        }
        None
    }
}

/// Reads the row that these bytes are, in place. Where they are damaged, some cells may be left blank.
pub fn read_row<L: Layout>(row: &mut Row<L::Value>, bytes: &[u8]) -> Result<(), Damaged>
    requires { length bytes.now ≡ row_length L.version }
    ensures damaged { IsErr result ↔ IsDamagedRow L.version bytes.now }
    ensures row { OnOk result (IsRow L.version L.spelled bytes.now row.new) }
    // The result once more, as the one function of the bytes that the contracts of other crates use.
    ensures unsaid { IsErr result ↔ (decoded_row L.version bytes.now ≡ None) }
    ensures said { OnOk result (IsSomeAnd (decoded_row L.version bytes.now)
        (λ seen. AreSeenAs L.version L.spelled seen row.new)) }
{
    // Cells of hosts that the layout does not have.
    for other in L::HOSTS..HOSTS_ROOM {
        row.cells[other] = Cell::blank();
    }
    for host in 0..L::HOSTS {
        let block = block_of::<L>(bytes, host);
        if is_blank::<L>(block) {
            row.cells[host] = Cell::blank();
            continue;
        }
        let cell = read_cell::<L>(host as u8, block)?;
        row.cells[host] = cell;
    }
    Ok(())
}

// The bytes of a host's block.
#[inline(always)]
pub(crate) fn block_of<L: Layout>(row: &[u8], host: usize) -> &[u8]
    requires row { length row.now ≡ row_length L.version }
    requires host { host < hosts_in L.version }
    ensures block { result.now ≡ Damage.block_of L.version host row.now }
    ensures long { length result.now ≡ block_length L.version }
{
    let place = 2 * L::COPY_LENGTH * host;
    &row[place..place + 2 * L::COPY_LENGTH]
}

/// The row that these bytes are.
pub fn decode_row<L: Layout>(bytes: &[u8]) -> Result<Row<L::Value>, Damaged>
    requires { length bytes.now ≡ row_length L.version }
    ensures damaged { IsErr result ↔ IsDamagedRow L.version bytes.now }
    ensures row { IfOk result (IsRow L.version L.spelled bytes.now) }
    // The result once more, as the one function of the bytes that the contracts of other crates use.
    ensures unsaid { IsErr result ↔ (decoded_row L.version bytes.now ≡ None) }
    ensures said { IfOk result (λ row.
        IsSomeAnd (decoded_row L.version bytes.now) (λ seen. AreSeenAs L.version L.spelled seen row)) }
{
    let mut row = Row::blank();
    read_row::<L>(&mut row, bytes)?;
    Ok(row)
}

/// Which blocks of these bytes of a row, in the cluster's layout, are damaged, by the hosts' numbers. `decode_row` finds the
/// row damaged exactly where one of them is.
pub fn damaged_hosts(bytes: &[u8; ROW_LENGTH]) -> [bool; HOSTS]
    ensures each { AreDamagedBlocks bytes.now result }
    ensures row { Contains result true ↔ IsDamagedRow cluster_version bytes.now }
    ensures exact { result ≡ damaged_in bytes.now }
{
    let mut damaged = [false; HOSTS];
    for host in 0..HOSTS {
        let place = BLOCK_LENGTH * host;
        let block = &bytes[place..place + BLOCK_LENGTH];
        damaged[host] = is_damaged_block::<ClusterLayout>(host as u8, block);
    }
    damaged
}
