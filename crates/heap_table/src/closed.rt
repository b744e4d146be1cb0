ghost use Rattle.std.specs.Prelude.{◌≡◌, map};
ghost use Rattle.heap_table.specs.Closed.{HasOneHistory};

use heap_model::{Entry, Heap};
use std::marker::Model;

/// A table that was closed: its words, and the logs of its seats and of its collector, which go together to one legal history. Closing alone makes it, and it has no copy.
#[derive(Drop)]
pub struct Closed {
    heap: Heap,
    words: Vec<u64>,
    logs: Vec<Vec<Entry>>,
    folded: u64,
}

impl Model for Closed {
    ghost use Rattle.std.specs.Prelude.{map};
    ghost use Rattle.heap_table.specs.Closed.{ClosedTable, HasOneHistory};

    ghost Value = { ClosedTable };

    ghost view = { λ closed. record {
      heap = closed.heap;
      words = closed.words.items;
      logs = map (λ log. log.items) closed.logs.items;
      folded = closed.folded;
    } };

    ghost invariant = { λ closed. HasOneHistory (record {
      heap = closed.heap;
      words = closed.words.items;
      logs = map (λ log. log.items) closed.logs.items;
      folded = closed.folded;
    }) };
}

impl Closed {
    /// What closing leaves.
    pub(crate) fn of(heap: Heap, words: Vec<u64>, logs: Vec<Vec<Entry>>, folded: u64) -> Closed
        requires { HasOneHistory (record { heap = heap; words = words.items; logs = map (λ log. log.items) logs.items; folded = folded }) }
        ensures { result ≡ record { heap = heap; words = words.items; logs = map (λ log. log.items) logs.items; folded = folded } }
    {
        Closed {
            heap,
            words,
            logs,
            folded,
        }
    }

    /// The heap whose table it was.
    pub fn heap(&self) -> Heap
        ensures { result ≡ self.now.heap }
    {
        self.heap
    }

    /// The table's words, in their order.
    pub fn words(&self) -> &[u64]
        ensures words { result.now ≡ self.now.words }
        ensures history { HasOneHistory self.now }
    {
        self.words.as_slice()
    }

    /// The logs, by seat and the collector's last.
    pub fn logs(&self) -> &[Vec<Entry>]
        ensures logs { map (λ log. log.items) result.now ≡ self.now.logs }
        ensures history { HasOneHistory self.now }
    {
        self.logs.as_slice()
    }

    /// The phase in which the last seat was folded in.
    pub fn folded(&self) -> u64
        ensures { result ≡ self.now.folded }
    {
        self.folded
    }
}
