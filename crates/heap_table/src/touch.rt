ghost use Rattle.std.specs.Prelude.{◌≡◌, ◌<◌, [], ℕ};
ghost use Rattle.atomic_table.specs.Table.{Allows, Splits};
ghost use Rattle.heap_model.specs.Heap.{IsHeap};
ghost use Rattle.core_machine.specs.table.Layout.{HasWord, index_of, table_length};
ghost use Rattle.core_machine.specs.table.Operation.{address_of, operation_of, word_after};
ghost use Rattle.heap_table.specs.Holds.{Holds};
ghost use Rattle.heap_table.specs.Told.{Tells, TellsStored};
ghost use Rattle.heap_table.specs.Handing.{handing_view, handed_view};

use crate::plays::{HandsOut, HeapName, Steps, Telling};
use crate::rule::{Token, Words};
use core_machine::{Operation, Step};
use heap_model::Heap;

/// Makes the step on its word, and answers the word found; of a store, the word stored. The party is named for what is told of it alone.
#[inline(always)]
pub(crate) fn touch<T: Telling, P>(
    table: &Words,
    token: &mut Token,
    heap: &Heap,
    step: &Step,
    _number: u8,
    _party: &P,
) -> u64
    requires table { token.old.table_id ≡ table.now.table_id }
    requires limits { IsHeap heap.now }
    requires size { table.now.table_id.words ≡ table_length heap.now }
    requires word { HasWord heap.now (address_of step.now) }
    requires rule { Allows (Holds table.now.key) table.now.table_id.slots token.old.id token.old.me (index_of heap.now (address_of step.now)) (word_after step.now) (Tells T.becomes T.told token.old.me) }
    requires stored { TellsStored (operation_of step.now) (Tells T.becomes T.told token.old.me) }
    ensures same { (token.new.table_id ≡ token.old.table_id) × (token.new.id ≡ token.old.id) }
    ensures tells { Tells T.becomes T.told token.old.me result token.new.me }
{
    let (address, operation) = step.touch();
    let word = address.index(heap);
    match operation {
        Operation::Load => table.load::<Steps<T>>(token, word),
        Operation::Store(new) => {
            table.store::<Steps<T>>(token, word, new);
            new
        }
        Operation::Exchange(new) => table.swap::<Steps<T>>(token, word, new),
        Operation::CompareExchange { old, new } => {
            table.compare_exchange::<Steps<T>>(token, word, old, new)
        }
        Operation::Or(bits) => table.fetch_or::<Steps<T>>(token, word, bits),
        Operation::And(bits) => table.fetch_and::<Steps<T>>(token, word, bits),
        Operation::Add(number) => table.fetch_add::<Steps<T>>(token, word, number),
        Operation::Subtract(number) => table.fetch_sub::<Steps<T>>(token, word, number),
    }
}

/// Reads a word that is named by its place.
pub(crate) fn read<T: Telling>(table: &Words, token: &mut Token, word: usize, _heap: &Heap) -> u64
    requires table { token.old.table_id ≡ table.now.table_id }
    requires within { word < table.now.table_id.words }
    requires rule { Allows (Holds table.now.key) table.now.table_id.slots token.old.id token.old.me word (λ n. n) (Tells T.becomes T.told token.old.me) }
    ensures same { token.new.table_id ≡ token.old.table_id }
    ensures tells { Tells T.becomes T.told token.old.me result token.new.me }
{
    table.load::<Steps<T>>(token, word)
}

/// Hands out the next seat's token.
pub(crate) fn hand_out<H: HeapName>(table: &Words, token: &mut Token, _heap: &Heap) -> Token
    requires table { token.old.table_id ≡ table.now.table_id }
    requires words { 0 < table.now.table_id.words }
    requires rule { Splits (Holds table.now.key) token.old.id token.old.me.0 (handing_view token.old.me.0) (handed_view H.heap token.old.me.0) }
    ensures handing { (token.new.table_id ≡ token.old.table_id) × (token.new.me ≡ (handing_view token.old.me.0, token.old.me.1)) }
    ensures handed { (result.table_id ≡ token.old.table_id) × (result.me ≡ (handed_view H.heap token.old.me.0, [])) }
{
    table.split_seat::<HandsOut<H>>(token)
}
