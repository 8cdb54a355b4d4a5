// What follows of every race, and the bytes of a bid.
ghost use Rattle.std.specs.Prelude.{◌≡◌, ◌<◌, ◌∷◌, ◌++◌, ℕ, Bool, IsTrue, List, replicate, slice_index_or};
ghost use Rattle.lock_command.specs.Command.{spelling};
ghost use Rattle.lock_command.specs.declared.reply.Reply.{Reply};
ghost use Rattle.race.specs.Bids.{bid_of};
ghost use Rattle.race.specs.Race.{IsRace};
ghost use Rattle.race.specs.declared.answer.Answer.{Answer};
ghost use Rattle.race.specs.declared.answer.Answer.TheVariants.{Acknowledged};

/// The bytes that the first host's bid takes in the log, and those of the third's.
pub fn bids_are_spelled()
    ensures first { spelling (bid_of 0) ≡
        (1 ∷ 0 ∷ 0 ∷ 5 ∷ 0 ∷ 2 ∷ 0 ∷ 1 ∷ 0 ∷ 0 ∷ 0 ∷ 0 ∷ 0 ∷ 0 ∷ 0 ∷ 1 ∷ 0 ∷ 100 ∷ 98 ∷ replicate 29 0) }
    ensures third { spelling (bid_of 2) ≡
        (1 ∷ 2 ∷ 2 ∷ 5 ∷ 0 ∷ 2 ∷ 0 ∷ 3 ∷ 0 ∷ 0 ∷ 0 ∷ 0 ∷ 0 ∷ 0 ∷ 0 ∷ 1 ∷ 0 ∷ 100 ∷ 98 ∷ replicate 29 0) }
{}

/// Whatever its threads did, the hosts of a race agree, and no two bids were acknowledged at one slot.
pub fn races_agree()
    ensures agree { (hosts : ℕ) (answers : List Answer) (agree : Bool) → IsRace hosts answers agree → IsTrue agree }
    ensures apart { (hosts h g slot : ℕ) (answers : List Answer) (agree : Bool) (d : Answer) (reply other : Reply) →
        IsRace hosts answers agree → h < hosts → g < hosts →
        slice_index_or answers h d ≡ Acknowledged slot reply →
        slice_index_or answers g d ≡ Acknowledged slot other → h ≡ g }
{}
