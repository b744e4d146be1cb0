ghost use Rattle.std.specs.Prelude.{◌≡◌, ◌≤◌, length, OnOk, OnErr};
ghost use Rattle.heap_model.specs.account.PhaseCounts.{phase};
ghost use Rattle.heap_model.specs.calls.CollectorCalls.{Turns};
ghost use Rattle.heap_record.specs.Recorded.{collector_of, StandsStill, MakesTurn};

use crate::note::note_since;
use crate::recorder::Recorder;
use core_machine::ShowsRecent;
use core_rule::law_every_run;
use heap_model::{CollectorCalls, Memory, Turn};

impl<L: ShowsRecent> CollectorCalls for Recorder<L> {
    ghost state = { collector_of };

    ghost turned = { MakesTurn };

    ghost roomed = { StandsStill };

    /// Makes a turn of the collector, for which there is room. A cycle has thousands of these, and all that one does is a step and some counts.
    #[inline(always)]
    fn turn(&mut self) -> Turn
        requires { 2 ≤ self.old.spare }
        ensures turns { Turns (collector_of self.old) (collector_of self.new) result }
        ensures turned { MakesTurn self.old self.new result }
    {
        law_every_run();
        let collector = self.machine.heap().seats;
        let before = self.machine.recent(collector).len();
        let turn = self.machine.play_turn();
        note_since(
            &mut self.entries,
            &mut self.spare,
            &mut self.machine,
            collector,
            before,
        );
        self.turns = self.turns.saturating_add(1);
        self.last_turn = Some(turn);
        turn
    }

    /// Makes room for at least `n` more entries of the collector.
    fn room(&mut self, n: usize) -> Result<(), Memory>
        ensures same { collector_of self.new ≡ record (collector_of self.old) { spare = self.new.spare } }
        ensures more { self.old.spare ≤ self.new.spare }
        ensures room { OnOk result (n ≤ self.new.spare) }
        ensures memory { OnErr result (collector_of self.new ≡ collector_of self.old) }
        ensures still { StandsStill self.old self.new }
    {
        let collector = self.machine.heap().seats;
        self.machine.room(collector, n)?;
        self.entries.reserve(n)?;
        self.spare = self.spare.max(n);
        Ok(())
    }

    fn spare(&self) -> usize {
        self.spare
    }

    fn phase(&self) -> u64
        ensures phase { result ≡ phase self.now.history }
        ensures logged { result ≤ length (collector_of self.now).log }
    {
        law_every_run();
        self.machine.phase()
    }

    fn turns(&self) -> u64 {
        self.turns
    }
}
