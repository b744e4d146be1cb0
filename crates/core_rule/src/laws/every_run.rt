ghost use Rattle.core_rule.specs.runs.Laws.{EachEventKeeps, EveryRunKeeps, WholeCallsPlay, FreeIsUnused, WordsAreUsed, EachBirthHasItsColour, EachAnswerIsMarked, EachWaitIsBehind, EachDeadIsTold, EachTurnComesTo};
ghost use Rattle.core_rule.specs.looks.Finds.{WaitsAreFinds, EachEventIsFollowed};
ghost use Rattle.core_rule.specs.runs.LoneLaws.{EachLoneRefusalIsRight};
ghost use Rattle.core_rule.specs.held.HeldLaws.{EachHeldIsTaken, NoClaimTakesHeld, NoFreeTakesHeld, EachHeldIsMarked, NoPlaceTakesHeld, NoCopyTakesHeld, EachStoreIsOwn, EachSpineStoreIsOwn, EachCopyStoreIsOwn};
ghost use Rattle.core_rule.specs.told.Found.{EachFoundIsTold};
ghost use Rattle.core_rule.specs.told.Reached.{EachReachesOwn};
ghost use Rattle.core_rule.specs.told.Told.{EachSeatIsAsTold};
ghost use Rattle.core_rule.specs.runs.TableLaws.{EachStepHasItsWord, EachTurnHasItsWord};
ghost use Rattle.core_rule.specs.turns.TurnsLeft.{EachTurnLeavesFewer};

/// The rule holds after every list of begins, steps and turns of the collector, over every heap.
pub fn law_every_run()
    ensures step { EachEventKeeps }
    ensures run { EveryRunKeeps }
    ensures play { WholeCallsPlay }
    ensures alone { EachLoneRefusalIsRight }
    ensures free { FreeIsUnused }
    ensures words { WordsAreUsed }
    ensures births { EachBirthHasItsColour }
    ensures answers { EachAnswerIsMarked }
    ensures waits { EachWaitIsBehind }
    ensures dead { EachDeadIsTold }
    ensures turns { EachTurnComesTo }
    ensures held { EachHeldIsTaken }
    ensures claims { NoClaimTakesHeld }
    ensures frees { NoFreeTakesHeld }
    ensures marked { EachHeldIsMarked }
    ensures places { NoPlaceTakesHeld }
    ensures copies { NoCopyTakesHeld }
    ensures stores { EachStoreIsOwn }
    ensures spine_stores { EachSpineStoreIsOwn }
    ensures copy_stores { EachCopyStoreIsOwn }
    ensures step_words { EachStepHasItsWord }
    ensures turn_words { EachTurnHasItsWord }
    ensures own { EachSeatIsAsTold }
    ensures found { EachFoundIsTold }
    ensures reached { EachReachesOwn }
    ensures fewer { EachTurnLeavesFewer }
    ensures finds { WaitsAreFinds }
    ensures looks { EachEventIsFollowed }
{}
