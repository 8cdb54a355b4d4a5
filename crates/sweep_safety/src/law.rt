// What recovers in simulated clusters of hosts over all epochs, whatever a script lets happen to them.
ghost use Rattle.sweep_safety.specs.Laws.{NoVariantIsWrong, RecoveriesAreRight, RecoveriesGoByOneLog, SweepsFindNothing};

/// Whatever events happen to new hosts and disks of zeros: of two hosts that recover then, one after the other, each that answers has all that was acknowledged, and
/// two that tell one place show one table. An epoch has 288 slots or more.
pub fn recoveries_are_right()
    ensures right { RecoveriesAreRight }
    // What was acknowledged stands in one log, with the lock table's replies, and what recovers shows the table after a beginning of it.
    ensures one_log { RecoveriesGoByOneLog }
{}

/// So each variant of a script ends right, whichever events it has.
pub fn no_variant_is_wrong()
    ensures variants { NoVariantIsWrong }
    // A sweep counts no wrong one, and names none.
    ensures counted { SweepsFindNothing }
{}
