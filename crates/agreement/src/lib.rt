//! Disk Paxos over registers: why a slot has one value, a log no gap, and a recovery misses nothing.
#![tactic(auto)]

ghost use Rattle.std.specs.Prelude.{◌≡◌, ◌≤◌, ◌∷◌, ◌++◌, [], ℕ, suc, List, Some, None};
ghost use Rattle.agreement.specs.State.{HOSTS, blank, seen, writing_one};
ghost use Rattle.agreement.specs.Event.{Event, IsRun, state_after, at_rest};
ghost use Rattle.agreement.specs.Event.Event.{Starts};
ghost use Rattle.agreement.specs.Chosen.{IsChosen, IsCommitted, IsEmpty};
ghost use Rattle.agreement.specs.Log.{Move, IsHistory, slots_after, events_of_slot};
ghost use Rattle.agreement.specs.Log.Move.{At};
ghost use Rattle.agreement.specs.Placed.{ArePlaced};
ghost use Rattle.agreement.specs.Race.{says, seven_proposed, eight_proposed, until_vanished, eight_chosen, race};
ghost use Rattle.agreement.specs.TwoSlots.{begun_on_disk_2, until_crashed, until_learned, until_restarted, until_recovered, until_empty, history};
ghost use Rattle.agreement.specs.Claims.{BindsGreater, StaysChosen, OneChosen, OnlyInputs, StaysProposed, OneProposal, CommitsChosen, Binds, NoneChosen, WritesAtRest};
ghost use Rattle.agreement.specs.Claims.{IsInOrder, LearnsChosen, OneChosenEach, OneLog, IsLog, HasLog, LogGrows, LearnsLog, ChosenBelow, LearnedBelow};

/// Agreement: what is chosen by a ballot is the value of each proposal of a greater one, and stays chosen; and at any two
/// places of a run one value is chosen, whatever the ballots.
pub fn agreement<Value>()
    ensures greater { (disks : ℕ) (events : List (Event Value)) → IsRun disks events →
        BindsGreater disks (state_after events) }
    ensures stays { (disks : ℕ) (early late : List (Event Value)) → IsRun disks (early ++ late) →
        StaysChosen disks (state_after early) (state_after (early ++ late)) }
    ensures one { (disks : ℕ) (early late : List (Event Value)) → IsRun disks (early ++ late) →
        OneChosen disks (state_after early) (state_after (early ++ late)) }
{}

/// Validity: whatever is proposed, and so whatever is chosen, was put in by a host that had found no vote.
pub fn only_inputs<Value>()
    ensures { (disks : ℕ) (events : List (Event Value)) → IsRun disks events → OnlyInputs events (state_after events) }
{}

/// A ballot has one proposal, over all incarnations of its host, which is one host; and the proposal stays.
pub fn one_proposal<Value>()
    ensures stays { (disks : ℕ) (early late : List (Event Value)) → IsRun disks (early ++ late) →
        StaysProposed (state_after early) (state_after (early ++ late)) }
    ensures one { (disks : ℕ) (early late : List (Event Value)) → IsRun disks (early ++ late) →
        OneProposal (state_after early) (state_after (early ++ late)) }
{}

/// What a host commits is chosen; and from its ballot on each host proposes it, at that place, later and earlier.
pub fn committed_value<Value>()
    ensures chosen { (disks : ℕ) (events : List (Event Value)) → IsRun disks events →
        CommitsChosen disks (state_after events) }
    ensures later { (disks : ℕ) (early late : List (Event Value)) → IsRun disks (early ++ late) →
        Binds disks (state_after early) (state_after (early ++ late)) }
    ensures earlier { (disks : ℕ) (early late : List (Event Value)) → IsRun disks (early ++ late) →
        Binds disks (state_after (early ++ late)) (state_after early) }
{}

/// An attempt that prepares its ballot and finds no vote shows that nothing had been chosen when it began.
pub fn nothing_missed<Value>()
    ensures { (disks : ℕ) (early late : List (Event Value)) (h : ℕ) →
        IsRun disks (early ++ Starts h ∷ late) → IsEmpty disks (state_after (early ++ Starts h ∷ late)) h →
        NoneChosen disks (state_after early) }
{}

/// A write is due only where nothing is in writing: so no register ever has two.
pub fn one_write<Value>()
    ensures { (disks : ℕ) (events : List (Event Value)) → IsRun disks events → WritesAtRest (state_after events) }
{}

/// Each slot of a history is a run of its own: so all of the above holds in each slot.
pub fn slots_apart<Value>()
    ensures runs { (disks k : ℕ) (ms : List (Move Value)) → IsHistory disks ms → IsRun disks (events_of_slot k ms) }
    ensures states { (k : ℕ) (ms : List (Move Value)) → (slots_after ms).slot k ≡ state_after (events_of_slot k ms) }
{}

/// A slot has a proposal only where each earlier slot has a chosen value.
pub fn slots_in_order<Value>()
    ensures { (disks : ℕ) (ms : List (Move Value)) → IsHistory disks ms → IsInOrder disks (slots_after ms) }
{}

/// One log: at any two places of a history one value is chosen for a slot; and what two hosts, or two incarnations of
/// one, have learned for it is that value.
pub fn one_log<Value>()
    ensures chosen { (disks : ℕ) (early late : List (Move Value)) → IsHistory disks (early ++ late) →
        OneChosenEach disks (slots_after early) (slots_after (early ++ late)) }
    ensures learned { (disks : ℕ) (ms : List (Move Value)) → IsHistory disks ms → LearnsChosen disks (slots_after ms) }
    ensures one { (disks : ℕ) (early late : List (Move Value)) → IsHistory disks (early ++ late) →
        OneLog (slots_after early) (slots_after (early ++ late)) }
{}

/// There is a log: a list of values, each of which is chosen in its slot, and beside which none is chosen. It only grows,
/// and what any host has learned is its beginning.
pub fn the_log<Value>()
    ensures exists { (disks : ℕ) (ms : List (Move Value)) → IsHistory disks ms → HasLog disks (slots_after ms) }
    ensures grows { (disks : ℕ) (early late : List (Move Value)) → IsHistory disks (early ++ late) →
        LogGrows disks (slots_after early) (slots_after (early ++ late)) }
    ensures learned { (disks : ℕ) (ms : List (Move Value)) → IsHistory disks ms → LearnsLog disks (slots_after ms) }
{}

/// No recovery is shorter than the log was when it began: where an attempt on slot n finds no vote, all that was chosen
/// when it began, and all that any host had learned, is of slots below n.
pub fn no_shorter<Value>()
    ensures chosen { (disks n h : ℕ) (early late : List (Move Value)) →
        IsHistory disks (early ++ At n (Starts h) ∷ late) →
        IsEmpty disks ((slots_after (early ++ At n (Starts h) ∷ late)).slot n) h →
        ChosenBelow disks (slots_after early) n }
    ensures learned { (disks n h : ℕ) (early late : List (Move Value)) →
        IsHistory disks (early ++ At n (Starts h) ∷ late) →
        IsEmpty disks ((slots_after (early ++ At n (Starts h) ∷ late)).slot n) h →
        LearnedBelow (slots_after early) n }
{}

/// Any values can come to be chosen, slot by slot, and nobody then has anything in mind: so all of the above holds of histories
/// that begin there.
pub fn values_can_be_placed<Value>()
    ensures { (disks : ℕ) (values : List Value) → 1 ≤ disks → ArePlaced disks values }
{}

/// A race of two hosts on three disks, computed. Host 0 restarts while its vote for 7 is in writing on two disks; on one
/// of them the vote vanishes, on the other it stands. Host 1 commits 8; then host 0 finds 8 and commits it too.
pub fn race_of_two()
    ensures is_run { IsRun 3 race }
    ensures in_writing { let before = state_after (seven_proposed ++ eight_proposed) in
        (before.cell 0 1).writing ≡ Some (says 1 1 (Some 7)) }
    ensures vanished { (state_after until_vanished).cell 0 1 ≡ at_rest (says 1 0 None) seen }
    ensures stands { (state_after until_vanished).cell 0 0 ≡ at_rest (says 1 1 (Some 7)) seen }
    ensures committed { IsCommitted 3 (state_after (until_vanished ++ eight_chosen)) 1 2 8 }
    ensures again { IsCommitted 3 (state_after race) 0 (suc HOSTS) 8 }
    ensures once { (v : ℕ) → IsChosen 3 (state_after race) v → v ≡ 8 }
{}

/// A history of two slots, computed. A disk crashes within the write of a ballot, host 0 learns 7 and forgets it in a restart,
/// host 1 recovers 7 and finds slot 1 empty, and then has 9 chosen there. The log is 7 when it begins to look, and 7, 9 at the end.
pub fn log_of_two_slots()
    ensures is_history { IsHistory 3 history }
    ensures in_writing { (((slots_after begun_on_disk_2).slot 0).cell 0 2).writing ≡ Some (says 1 0 None) }
    ensures vanished { ((slots_after until_crashed).slot 0).cell 0 2 ≡ at_rest blank writing_one }
    ensures learned { (slots_after until_learned).learned 0 ≡ 7 ∷ [] }
    ensures forgotten { (slots_after until_restarted).learned 0 ≡ [] }
    ensures recovered { (slots_after until_recovered).learned 1 ≡ 7 ∷ [] }
    ensures empty { IsEmpty 3 ((slots_after until_empty).slot 1) 1 }
    ensures before { IsLog 3 (slots_after until_recovered) (7 ∷ []) }
    ensures log { IsLog 3 (slots_after history) (7 ∷ 9 ∷ []) }
{}
