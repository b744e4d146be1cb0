ghost use Rattle.core_rule.specs.sweep_exact.SweepLaws.{EachEndLeavesLittle, EachReachIsListed, EachLastCycleEmpties, EachLastCycleBalances, EachReserveIsSmall, EachSeatBringsLittle};

/// What every ended cycle leaves, by lists that are there, that the last one leaves nothing, and how little a seat holds back, in its state and in a history.
pub fn law_sweep_exact()
    ensures ends { EachEndLeavesLittle }
    ensures lists { EachReachIsListed }
    ensures emptied { EachLastCycleEmpties }
    ensures balanced { EachLastCycleBalances }
    ensures reserves { EachReserveIsSmall }
    ensures brought { EachSeatBringsLittle }
{}
