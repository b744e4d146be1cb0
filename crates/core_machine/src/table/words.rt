ghost use Rattle.std.specs.Prelude.{◌≡◌, length};
ghost use Rattle.heap_model.specs.Heap.{IsHeap};
ghost use Rattle.core_machine.specs.table.Layout.{at, put, InTable};
ghost use Rattle.core_machine.specs.table.Operation.{address_of, word_after};

use crate::step::Step;
use crate::table::address::Address;
use heap_model::Heap;

/// The word at the address; 0 past the end of the table.
#[tactic(auto, unfolding(crate::specs::table::Layout::at))]
pub fn load(words: &[u64], heap: &Heap, address: Address) -> u64
    requires limits { IsHeap heap.now }
    requires in_table { InTable heap.now address }
    ensures { result ≡ at heap.now words.now address }
{
    match words.get(address.index(heap)) {
        Some(word) => *word,
        None => 0,
    }
}

/// Writes the word at the address; past the end of the table nothing is written.
#[tactic(auto, unfolding(crate::specs::table::Layout::put))]
pub fn store(words: &mut [u64], heap: &Heap, address: Address, word: u64)
    requires limits { IsHeap heap.now }
    requires in_table { InTable heap.now address }
    ensures put { words.new ≡ put heap.now words.old address word }
    ensures table { length words.new ≡ length words.old }
{
    let index = address.index(heap);
    if index < words.len() {
        words[index] = word;
    }
}

/// Does to its word what the step does, and answers the word as it was before. Past the end of the table that was 0,
/// and nothing is written.
#[tactic(auto, unfolding(crate::specs::table::Layout::at, crate::specs::table::Layout::put))]
#[inline(always)]
pub fn perform(words: &mut Vec<u64>, heap: &Heap, step: &Step) -> u64
    requires limits { IsHeap heap.now }
    requires in_table { InTable heap.now (address_of step.now) }
    ensures found { result ≡ at heap.now words.old.items (address_of step.now) }
    ensures words { words.new.items ≡ put heap.now words.old.items (address_of step.now) (word_after step.now result) }
{
    let (address, operation) = step.touch();
    let index = address.index(heap);
    if index >= words.len() {
        return 0;
    }
    let found = words[index];
    words[index] = operation.written(found);
    found
}
