ghost use Rattle.std.specs.Prelude.{◌≡◌, ◌<◌, ◌+◌, ◌^◌, slice_index, map, length, true, false, Ok, IsTrue, IsSome, IfOk, IfSome, IfNone, IsSomeAnd, OnOk};
ghost use Rattle.std.specs.Option.{ForSome};
ghost use Rattle.heap_model.specs.Heap.{IsHeap};
ghost use Rattle.heap_model.specs.Command.{IsRegister};
ghost use Rattle.heap_model.specs.Logs.{logs_of};
ghost use Rattle.heap_model.specs.graph.Objects.{register_value};
ghost use Rattle.heap_model.specs.graph.Legal.{Accepts, IsObjectLegal};
ghost use Rattle.log_merge.specs.FewSets.{HaveFewSets};
ghost use Rattle.log_merge.specs.Merging.{HasOrder, IsNext, TakesFirstReady};

use crate::merging::pending_gets::{PendingGet, PendingGets, kind_of};
use heap_model::limits::LAST_REGISTER;
use heap_model::{ApplyFault, Command, Entry, Graph, Heap, Memory, Reply, Value};
use std::alloc::Global;

/// The value of a register, where the seat has one of this number.
fn held(graph: &Graph, seat: u8, r: u8) -> Value
    ensures { IsRegister r → result ≡ register_value graph.now seat r }
{
    if (seat as usize) < graph.seats() && r <= LAST_REGISTER {
        graph.value(seat, r)
    } else {
        Value::Nil
    }
}

/// Puts logs together, entry by entry.
#[derive(Drop)]
pub struct Merger {
    heap: Heap,
    graph: Graph,
    pending: PendingGets,
    /// How many entries of each log are placed.
    counts: Vec<usize>,
    placed: Vec<Entry>,
}

impl Merger {
    ghost use Rattle.log_merge.specs.PendingGets.{pending_count};
    ghost use Rattle.log_merge.specs.Placing.{IsMerging, IsStuck, AreStuck, left_count, replaced_by, got_by};

    /// The merge of which nothing is placed yet.
    pub fn new(alloc: Global, logs: &[Vec<Entry>], heap: Heap) -> Result<Merger, Memory>
        requires heap { IsHeap heap }
        requires order { HasOrder heap (map (λ log. log.items) logs.now) }
        requires few { HaveFewSets (map (λ log. log.items) logs.now) }
        ensures heap { IfOk result (λ merger. merger.heap ≡ heap) }
        ensures merging { IfOk result (λ merger. IsMerging (map (λ log. log.items) logs.now) merger) }
    {
        Ok(Merger {
            heap,
            graph: Graph::new(alloc, heap)?,
            pending: PendingGets::of_logs(alloc, logs)?,
            counts: vec![in alloc; 0; logs.len()]?,
            placed: Vec::new(alloc),
        })
    }

    /// The first entry that is left of the log.
    fn next_of(&self, logs: &[Vec<Entry>], number: usize) -> Option<Entry>
        requires merging { IsMerging (map (λ log. log.items) logs.now) self.now }
        requires number { number < length logs.now }
        ensures next { IfSome result (λ entry. IsNext self.now.heap (map (λ log. log.items) logs.now) self.now.placed.items number entry) }
        ensures room { IsSome result → slice_index self.now.counts.items number + 1 < 2 ^ 64 }
        ensures none { IfNone result (IsStuck (map (λ log. log.items) logs.now) self.now number) }
    {
        logs[number].as_slice().get(self.counts[number]).copied()
    }

    /// The get that a set, or a cas that swapped, has to wait for, if the entry is one.
    fn replaced_by(&self, entry: &Entry) -> Option<PendingGet>
        ensures { Accepts self.now.graph entry.now → result ≡ replaced_by self.now.graph entry.now }
    {
        match *entry {
            Entry::Said {
                seat,
                command: Command::Set { r, i, .. } | Command::Cas { r, i, .. },
                reply: Reply::Was(stamp),
            } => kind_of(held(&self.graph, seat, r), i, stamp),
            _ => None,
        }
    }

    /// The get that the entry is, if it is one that found a cell, or a cas that left it.
    fn got_by(&self, entry: &Entry) -> Option<PendingGet>
        ensures { Accepts self.now.graph entry.now → result ≡ got_by self.now.graph entry.now }
    {
        match *entry {
            Entry::Said {
                seat,
                command: Command::Get { r, i, .. },
                reply: Reply::Got { stamp, .. },
            }
            | Entry::Said {
                seat,
                command: Command::Cas { r, i, .. },
                reply: Reply::Now(stamp),
            } => kind_of(held(&self.graph, seat, r), i, stamp),
            _ => None,
        }
    }

    /// Whether a log still has a get that the entry must not go before.
    fn must_wait(&self, entry: &Entry) -> bool
        ensures waits { IsTrue result → Accepts self.now.graph entry.now → IsSomeAnd (replaced_by self.now.graph entry.now) (λ get. 0 < pending_count self.now.pending get) }
        ensures goes { result ≡ false → Accepts self.now.graph entry.now → ForSome (replaced_by self.now.graph entry.now) (λ get. ¬ (0 < pending_count self.now.pending get)) }
    {
        match self.replaced_by(entry) {
            Some(get) => self.pending.has(get),
            None => false,
        }
    }

    /// Places the next entry of the log where it is ready, and answers whether it was.
    fn place_next(&mut self, logs: &[Vec<Entry>], number: usize) -> Result<bool, Memory>
        requires merging { IsMerging (map (λ log. log.items) logs.now) self.old }
        requires number { number < length logs.now }
        requires lowest { AreStuck (map (λ log. log.items) logs.now) self.old number }
        ensures placed { result ≡ Ok true → IsMerging (map (λ log. log.items) logs.now) self.new }
        ensures less { result ≡ Ok true → left_count (map (λ log. log.items) logs.now) self.new < left_count (map (λ log. log.items) logs.now) self.old }
        ensures stuck { result ≡ Ok false → IsStuck (map (λ log. log.items) logs.now) self.old number }
        ensures unchanged { result ≡ Ok false → self.new ≡ self.old }
        ensures heap { self.new.heap ≡ self.old.heap }
    {
        let Some(entry) = self.next_of(logs, number) else {
            return Ok(false);
        };
        if self.must_wait(&entry) {
            return Ok(false);
        }
        let got = self.got_by(&entry);
        match self.graph.apply(&entry) {
            Ok(()) => {}
            Err(ApplyFault::NotLegal) => return Ok(false),
            Err(ApplyFault::Memory) => return Err(Memory),
        }
        if let Some(get) = got {
            self.pending.take(get);
        }
        self.counts[number] += 1;
        self.placed.push(entry)?;
        Ok(true)
    }

    /// Places the first entry that is ready, and answers whether one was left.
    fn place_first(&mut self, logs: &[Vec<Entry>]) -> Result<bool, Memory>
        requires { IsMerging (map (λ log. log.items) logs.now) self.old }
        ensures placed { OnOk result (IsMerging (map (λ log. log.items) logs.now) self.new) }
        ensures less { result ≡ Ok true → left_count (map (λ log. log.items) logs.now) self.new < left_count (map (λ log. log.items) logs.now) self.old }
        ensures whole { result ≡ Ok false → map (λ log. log.items) logs.now ≡ logs_of self.new.heap self.new.placed.items }
        ensures heap { self.new.heap ≡ self.old.heap }
    {
        for number in 0..logs.len() {
            if self.place_next(logs, number)? {
                return Ok(true);
            }
        }
        Ok(false)
    }

    /// Places all that is left of the logs.
    pub fn place_all(mut self, logs: &[Vec<Entry>]) -> Result<Vec<Entry>, Memory>
        requires { IsMerging (map (λ log. log.items) logs.now) self }
        ensures legal { IfOk result (λ history. IsObjectLegal self.heap history.items) }
        ensures kept { IfOk result (λ history. map (λ log. log.items) logs.now ≡ logs_of self.heap history.items) }
        ensures first { IfOk result (λ history. TakesFirstReady self.heap (map (λ log. log.items) logs.now) history.items) }
    {
        while self.place_first(logs)? {}
        let Merger { placed, .. } = self;
        Ok(placed)
    }
}
