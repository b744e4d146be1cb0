ghost use Rattle.std.specs.Prelude.{◌≡◌, ◌++◌, ◌∷◌, ℕ, List, IfOk, OnOk};
ghost use Rattle.heap_model.specs.declared.entry.Entry.{Entry as AnEntry};
ghost use Rattle.heap_model.specs.declared.heap.Heap.{Heap as AHeap};
ghost use Rattle.heap_model.specs.Heap.{IsHeap};
ghost use Rattle.heap_model.specs.graph.Graph.{opening};
ghost use Rattle.heap_model.specs.graph.Growth.{after_entry};
ghost use Rattle.heap_model.specs.graph.Legal.{Accepts, IsObjectLegal};
ghost use Rattle.heap_queue.specs.Effects.{effects_at, effects_of, moved};
ghost use Rattle.heap_queue.specs.Stages.{AreNamed, places_of};
ghost use Rattle.heap_queue.specs.TellerState.{HasDone, HasTold};
ghost use Rattle.heap_queue.specs.Telling.{effects_in, effects_told, kept, told_at, told_of};

use crate::stages::Stages;
use crate::telling::told;
use crate::told::{Told, ToldCall};
use heap_model::{ApplyFault, Entry, Graph, Heap, Memory};
use std::alloc::Global;

/// What was told of the entries so far, and what the next ones are told by.
#[derive(Drop)]
pub(crate) struct Teller {
    graph: Graph,
    stages: Stages,
    calls: Vec<ToldCall>,
}

/// Lets the graph grow by the entry, which it refuses for want of memory alone where the entry is legal.
fn grow(graph: &mut Graph, entry: &Entry) -> Result<(), Memory>
    ensures { OnOk result (graph.new ≡ after_entry graph.old entry.now) }
{
    match graph.apply(entry) {
        Ok(()) => Ok(()),
        Err(ApplyFault::NotLegal | ApplyFault::Memory) => Err(Memory),
    }
}

/// Keeps what a seat's reply tells, if anything.
#[tactic(auto, using(crate::proofs::TellingSteps::effects_in_more))]
fn keep(calls: &mut Vec<ToldCall>, seat: u8, told: Option<Told>) -> Result<(), Memory>
    ensures calls { OnOk result (calls.new.items ≡ calls.old.items ++ kept seat told) }
    ensures effects { OnOk result (effects_in calls.new.items ≡ effects_in calls.old.items ++ effects_told told) }
{
    if let Some(told) = told {
        calls.push(ToldCall { seat, told })?;
    }
    Ok(())
}

impl Teller {
    /// Before the first entry.
    fn opening(alloc: Global, heap: Heap) -> Result<Teller, Memory>
        requires { IsHeap heap }
        ensures told { (history : List AnEntry) → IfOk result (HasTold heap history history) }
        ensures done { (history : List AnEntry) → IfOk result (HasDone heap history history) }
        ensures graph { IfOk result (λ teller. teller.graph ≡ opening heap) }
        ensures named { IfOk result (λ teller. AreNamed teller.stages) }
    {
        let graph = Graph::new(alloc, heap)?;
        Ok(Teller {
            graph,
            stages: Stages::opening(),
            calls: Vec::new(alloc),
        })
    }

    /// Tells what the entry tells, and moves its seat on.
    fn note(&mut self, entry: &Entry) -> Result<(), Memory>
        requires accepted { Accepts self.old.graph entry.now }
        requires named { AreNamed self.old.stages }
        ensures graph { self.new.graph ≡ self.old.graph }
        ensures calls { OnOk result (self.new.calls.items ≡ self.old.calls.items ++ told_at self.old.graph (places_of self.old.stages) entry.now) }
        ensures effects { OnOk result (effects_in self.new.calls.items ≡ effects_in self.old.calls.items ++ effects_at self.old.graph (places_of self.old.stages) entry.now) }
        ensures places { OnOk result ((number : ℕ) → places_of self.new.stages number ≡ moved (places_of self.old.stages) entry.now number) }
        ensures named { AreNamed self.new.stages }
    {
        let Entry::Said {
            seat,
            command,
            reply,
        } = *entry
        else {
            return Ok(());
        };
        // A graph has sixteen seats at most, and so there is a stage for this one.
        let _seats = self.graph.seats();
        let stage = self.stages.stage(seat);
        keep(
            &mut self.calls,
            seat,
            told(&self.graph, seat, stage, command, reply),
        )?;
        self.stages.pass(seat, command, reply);
        Ok(())
    }

    /// Goes on by the next entry.
    fn pass(&mut self, entry: &Entry) -> Result<(), Memory>
        requires accepted { Accepts self.old.graph entry.now }
        requires named { AreNamed self.old.stages }
        ensures told { (heap : AHeap) (history rest : List AnEntry) →
            HasTold heap history (entry.now ∷ rest) self.old → OnOk result (HasTold heap history rest self.new) }
        ensures done { (heap : AHeap) (history rest : List AnEntry) →
            HasDone heap history (entry.now ∷ rest) self.old → OnOk result (HasDone heap history rest self.new) }
        ensures grown { OnOk result (self.new.graph ≡ after_entry self.old.graph entry.now) }
        ensures named { AreNamed self.new.stages }
    {
        self.note(entry)?;
        grow(&mut self.graph, entry)?;
        Ok(())
    }
}

/// What a legal history tells of each put and take of a queue that the first seat makes, in the order in which they did what they did.
pub fn tell_calls(alloc: Global, heap: Heap, history: &[Entry]) -> Result<Vec<ToldCall>, Memory>
    requires heap { IsHeap heap }
    requires legal { IsObjectLegal heap history.now }
    ensures told { IfOk result (λ calls. calls.items ≡ told_of heap 0 history.now) }
    ensures effects { IfOk result (λ calls. effects_in calls.items ≡ effects_of heap 0 history.now) }
{
    let mut teller = Teller::opening(alloc, heap)?;
    for entry in history {
        teller.pass(entry)?;
    }
    Ok(teller.calls)
}
