ghost use Rattle.std.specs.Prelude.{◌≡◌, ℕ, ◌*◌, ◌≤◌, length};
ghost use Rattle.heap_model.specs.Heap.{IsHeap};
ghost use Rattle.heap_model.specs.Limits.{group_fragments};
ghost use Rattle.core_machine.specs.machine.Calls.{free_count};
ghost use Rattle.core_machine.specs.table.Fragments.{clear_in};
ghost use Rattle.core_machine.specs.table.Layout.{table_length};

use crate::log::CountsEntries;
use crate::machine::Machine;
use crate::table::address::Address;
use crate::table::words::load;
use heap_model::Heap;
use heap_words::Group;

impl<L: CountsEntries> Machine<L> {
    /// How many fragments have no taken bit.
    pub fn free(&self) -> usize
        ensures free { result ≡ free_count self.now.heap self.now.state.words }
        ensures few { result ≤ group_fragments * self.now.heap.groups }
    {
        free_in(&self.words, &self.heap)
    }
}

/// How many fragments have no taken bit in these words.
fn free_in(words: &[u64], heap: &Heap) -> usize
    requires limits { IsHeap heap.now }
    requires table { length words.now ≡ table_length heap.now }
    ensures free { result ≡ free_count heap.now words.now }
    ensures few { result ≤ group_fragments * heap.now.groups }
{
    let mut free = 0;
    for group in 0..heap.groups {
        let word = load(words, heap, Address::Control(group));
        free += count_clear(word);
    }
    free
}

/// How many fragments of a group have no taken bit in its control word.
#[tactic(auto, using(crate::proofs::table_lemmas::Counting::clear_count_is_zero_count, crate::proofs::table_lemmas::Counting::few_zeros))]
fn count_clear(word: u64) -> usize
    ensures count { (group : ℕ) → result ≡ length (clear_in group word) }
    ensures few { result ≤ group_fragments }
{
    Group::read(word).taken.count_zeros() as usize
}
