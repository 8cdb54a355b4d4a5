// What a host has seen of a disk since the disk told its boot number last.
ghost use Rattle.std.specs.Prelude.{◌≡◌, ◌++◌, ◌∷◌, [], ℕ, false, List, Some};
ghost use Rattle.disk.specs.Disk.{Attach, Booted, Sync, Done};

use disk::Boot;
use torn_block::HOSTS;

#[derive(Clone, Copy)]
pub struct Sight {
    pub boot: Boot,
    /// Under this boot number the disk was synced.
    pub is_synced: bool,
    /// And then the host's own number was read, and was the epoch's.
    pub is_sure: bool,
    /// The numbers that were read last under this boot number.
    pub numbers: Option<[u64; HOSTS]>,
}

impl Sight {
    ghost use Rattle.standings.specs.declared.epoch.Epoch.{Epoch};
    ghost use Rattle.standings.specs.Reading.{numbers_in};
    ghost use Rattle.standings.specs.Past.{Past, made, reading};
    ghost use Rattle.window.specs.Knows.{AreSaid, Knows, KnowsOf};
    ghost use Rattle.window.specs.Steps;
    ghost use Rattle.window.specs.Sights.{IsKnownUnder, IsUnder, IsSyncedUnder, IsSureUnder, Keeps};

    /// The numbers that were read last under a boot number.
    pub fn numbers_under(sight: &Option<Sight>, boot: Boot) -> Option<[u64; HOSTS]>
        ensures { result ≡ Steps.numbers_under boot.number sight.now }
    {
        match sight {
            Some(sight) if sight.boot.number == boot.number => sight.numbers,
            _ => None,
        }
    }

    /// After an attach that told this boot number. Numbers that were read under the same one are still known.
    pub fn attached(before: &Option<Sight>, boot: Boot) -> Sight
        ensures under { IsUnder boot.number (Some result) }
        ensures known { IsKnownUnder boot.number before.now → IsKnownUnder boot.number (Some result) }
        ensures knows { (n host : ℕ) (e : Epoch) (past : Past) → KnowsOf n e host past before.now →
            Knows n e host (past ++ made Attach (Booted boot.number) ∷ []) result }
    {
        Sight {
            boot,
            is_synced: false,
            is_sure: false,
            numbers: Sight::numbers_under(before, boot),
        }
    }

    /// After a sync under this boot number that succeeded.
    pub fn synced(before: &Option<Sight>, boot: Boot) -> Option<Sight>
        ensures synced { IsUnder boot.number before.now → IsSyncedUnder boot.number result }
        ensures keeps { Keeps before.now result }
        ensures knows { (n host : ℕ) (e : Epoch) (past : Past) → KnowsOf n e host past before.now →
            KnowsOf n e host (past ++ made (Sync boot.number) Done ∷ []) result }
    {
        let sight = (*before)?;
        Some(Sight {
            is_synced: sight.is_synced || sight.boot.number == boot.number,
            ..sight
        })
    }

    /// After a reading of the standings under this boot number, by which the host is inside of the epoch, unless it only looks.
    pub fn read(
        before: &Option<Sight>,
        boot: Boot,
        numbers: &[u64; HOSTS],
        only_looks: bool,
    ) -> Option<Sight>
        ensures sure { only_looks ≡ false → IsSyncedUnder boot.number before.now → IsSureUnder boot.number result }
        ensures known { IsUnder boot.number before.now → IsKnownUnder boot.number result }
        ensures keeps { Keeps before.now result }
        ensures knows { (n host : ℕ) (e : Epoch) (past : Past) (row : List ℕ) → AreSaid row numbers.now →
            (only_looks ≡ false → numbers_in row host ≡ e.number) → KnowsOf n e host past before.now →
            KnowsOf n e host (past ++ reading n e.area boot.number row ∷ []) result }
    {
        let sight = (*before)?;
        if sight.boot.number != boot.number {
            return Some(sight);
        }
        Some(Sight {
            is_sure: sight.is_sure || (sight.is_synced && !only_looks),
            numbers: Some(*numbers),
            ..sight
        })
    }
}
