ghost use Rattle.std.specs.Prelude.{◌≡◌, IfOk};
ghost use Rattle.heap_runs.specs.PlayHeap.{AnswersCollect};
ghost use Rattle.heap_runs.specs.MachineHeap.{run_state_of, IsBetweenCalls, CollectsMachine};
ghost use Rattle.heap_record.specs.Recorded.{MakesInner};
ghost use Rattle.heap_runs.specs.Collecting.{MayGoOn, IsStillThere, EndsFor, EndsWholeFor, seen_by};

use crate::machine_heap::MachineHeap;
use crate::play_heap::PlayHeap;
use core_machine::noted;
use core_rule::law_every_run;
use heap_model::phase_plan::{CYCLE_PHASES, REST};
use heap_model::{CollectReply, Inner, Memory, Reply, Turn};

/// The call by which a seat sees for itself what its turns came to.
fn seen_by(came: CollectReply) -> Inner
    ensures { result ≡ seen_by came }
{
    match came {
        CollectReply::Cycle(_) => Inner::Look,
        CollectReply::Waits { seat, .. } => Inner::Behind { seat },
    }
}

impl MachineHeap {
    /// What is true of every such heap.
    pub fn known(&self)
        ensures { IsBetweenCalls self.now.machine.heap self.now.machine.state self.now.history }
    {
        let _ = &self.recorder;
    }

    /// Makes a whole inner call of the seat's collect.
    fn make_inner(&mut self, seat: u8, inner: Inner) -> Result<(), Memory>
        requires may { MayGoOn self.old seat inner }
        ensures makes { IfOk result (λ done. MakesInner self.old self.new seat inner) }
    {
        self.recorder.inner(seat, inner)?;
        Ok(())
    }

    /// Makes turns up to the first that ends a cycle or waits for another seat. Where one waits for this seat, it answers.
    fn end_for(&mut self, seat: u8) -> Result<CollectReply, Memory>
        requires present { IsStillThere self.old seat }
        ensures ends { IfOk result (EndsFor self.old self.new seat) }
    {
        law_every_run();
        self.known();
        'turns: loop {
            let turn = self.take_turn()?;
            self.known();
            if let Turn::Ended { cycle, .. } = turn {
                return Ok(CollectReply::Cycle(cycle));
            }
            if let Some(behind) = turn.behind() {
                if behind.seat != seat {
                    return Ok(CollectReply::from(behind));
                }
                self.make_inner(seat, Inner::Answer)?;
                self.known();
            }
        }
    }

    /// Makes turns up to the end of a cycle that begins in them or waits for another seat.
    fn end_whole(&mut self, seat: u8) -> Result<CollectReply, Memory>
        requires present { IsStillThere self.old seat }
        ensures ends { IfOk result (EndsWholeFor self.old self.new seat) }
    {
        if self.run_phase() % CYCLE_PHASES == REST {
            let came = self.end_for(seat)?;
            return Ok(came);
        }
        match self.end_for(seat)? {
            CollectReply::Cycle(_) => {
                let came = self.end_for(seat)?;
                Ok(came)
            }
            waits @ CollectReply::Waits { .. } => Ok(waits),
        }
    }

    /// Makes a whole collect of the seat, for which it makes the turns itself.
    pub fn collect(&mut self, seat: u8) -> Result<Reply, Memory>
        requires present { IsStillThere self.old seat }
        ensures answers { IfOk result (AnswersCollect (run_state_of self.old) (run_state_of self.new) seat) }
        ensures machine { IfOk result (λ reply. CollectsMachine self.old self.new seat) }
    {
        law_every_run();
        self.known();
        self.make_inner(seat, Inner::Look)?;
        self.known();
        let came = self.end_whole(seat)?;
        self.known();
        self.make_inner(seat, seen_by(came))?;
        self.known();
        self.make_inner(seat, Inner::Note(came))?;
        Ok(noted(came))
    }
}
