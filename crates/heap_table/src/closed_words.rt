ghost use Rattle.std.specs.Prelude.{◌≡◌};
ghost use Rattle.heap_table.specs.Closed.{AreLastWords};

use heap_model::Heap;
use std::marker::Model;

/// A table that was closed without logs: its words. Closing alone makes it, and it has no copy.
#[derive(Drop)]
pub struct ClosedWords {
    heap: Heap,
    words: Vec<u64>,
    folded: u64,
}

impl Model for ClosedWords {
    ghost use Rattle.heap_table.specs.Closed.{LastWords, AreLastWords};

    ghost Value = { LastWords };

    ghost view = { λ closed. record { heap = closed.heap; words = closed.words.items; folded = closed.folded } };

    ghost invariant = { λ closed. AreLastWords (record { heap = closed.heap; words = closed.words.items; folded = closed.folded }) };
}

impl ClosedWords {
    /// What closing leaves.
    pub(crate) fn of(heap: Heap, words: Vec<u64>, folded: u64) -> ClosedWords
        requires { AreLastWords (record { heap = heap; words = words.items; folded = folded }) }
        ensures { result ≡ record { heap = heap; words = words.items; folded = folded } }
    {
        ClosedWords {
            heap,
            words,
            folded,
        }
    }

    /// The heap whose table it was.
    pub fn heap(&self) -> Heap
        ensures { result ≡ self.now.heap }
    {
        self.heap
    }

    /// The table's words, in their order.
    pub fn words(&self) -> &[u64]
        ensures words { result.now ≡ self.now.words }
        ensures last { AreLastWords self.now }
    {
        self.words.as_slice()
    }

    /// The phase in which the last seat was folded in.
    pub fn folded(&self) -> u64
        ensures { result ≡ self.now.folded }
    {
        self.folded
    }
}
