ghost use Rattle.heap_table.specs.StepLaws.{EachMakesNone, EachStepIsMade, StepsJoin, OneMoreIsMade, EachStepIsNearer, RoomIsLeft, EachStaysSound, EachStepReaches, EachStageGoesOn, EachStageGoesAlong, EachStageIsTold};

/// The laws of steps that a seat makes, whatever others do between them: that those made one after another are all of
/// them made, that each brings the call nearer to its end, that its room is enough and its data fit together along them,
/// what a call has reached by one, and that a call stands along them as it is to, with what it has told.
#[inline(always)]
pub fn step_laws()
    ensures none { EachMakesNone }
    ensures one { EachStepIsMade }
    ensures joined { StepsJoin }
    ensures more { OneMoreIsMade }
    ensures nearer { EachStepIsNearer }
    ensures room { RoomIsLeft }
    ensures sound { EachStaysSound }
    ensures reached { EachStepReaches }
    ensures stage { EachStageGoesOn }
    ensures along { EachStageGoesAlong }
    ensures told { EachStageIsTold }
{}
