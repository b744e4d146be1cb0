ghost use Rattle.std.specs.Prelude.{◌≡◌, min, ◌+◌, ◌-◌, ◌^◌};

use crate::collector::CollectorParty;
use crate::collector::stage::Stage;
use crate::log::CountsEntries;

/// How turns end that were made while the party stood where they began.
impl<L: CountsEntries> CollectorParty<L> {
    /// Where it stands in its phase.
    #[inline(always)]
    pub fn stage(&self) -> Stage
        ensures { result ≡ self.now.collector.stage }
    {
        self.stage
    }

    /// Ends so many turns, which have led to this stage of the phase and have told no entry.
    #[inline(always)]
    pub fn end_turns(&mut self, stage: Stage, turns: u64)
        ensures collector { self.new.collector ≡ record self.old.collector { stage = stage } }
        ensures spare { self.new.spare ≡ self.old.spare }
        ensures forgotten { self.new.forgotten ≡ self.old.forgotten }
        ensures turns { self.new.turns ≡ min (self.old.turns + turns) (2 ^ 64 - 1) }
    {
        self.stage = stage;
        self.turns = self.turns.saturating_add(turns);
    }
}
