ghost use Rattle.std.specs.Prelude.{◌≡◌, ℕ, ◌+◌, ◌*◌, ◌<◌, ◌≤◌, ◌^◌, length, map, replicate, All, IfOk};
ghost use Rattle.std.specs.List.{range_with_len};
ghost use Rattle.heap_model.specs.Board.{board_fragments};
ghost use Rattle.heap_model.specs.Limits.{most_seats};
ghost use Rattle.core_machine.specs.declared.table.address.Address.{Address};
ghost use Rattle.heap_model.specs.Heap.{IsHeap};
ghost use Rattle.core_machine.specs.table.Layout.{at, InTable, table_length};
ghost use Rattle.core_machine.specs.machine.Opening.{IsOpening, opening_word, opening_seat, with_left, with_board};

use crate::collector::CollectorParty;
use crate::log::CountsEntries;
use crate::machine::Machine;
use crate::seat::SeatParty;
use crate::table::address::Address;
use crate::table::words::store;
use heap_model::limits::MOST_SEATS;
use heap_model::{Heap, Memory};
use heap_words::{Group, LEFT, Name, Newborn, Spot};
use std::alloc::Global;

/// The fragments of the first group, the first of which are the board's.
const FIRST_GROUP: [u16; 16] = [0, 1, 2, 3, 4, 5, 6, 7, 8, 9, 10, 11, 12, 13, 14, 15];

impl Machine {
    /// The machine of a heap that opens, whose logs keep all entries.
    pub fn make(alloc: Global, heap: Heap) -> Result<Machine, Memory>
        requires { IsHeap heap }
        ensures heap { IfOk result (λ machine. machine.heap ≡ heap) }
        ensures opening { IfOk result (λ machine. IsOpening heap machine.state) }
    {
        Machine::with_logs(alloc, heap)
    }
}

impl<L: CountsEntries> Machine<L> {
    /// The machine of a heap that opens, with logs of this type.
    pub fn with_logs(alloc: Global, heap: Heap) -> Result<Machine<L>, Memory>
        requires { IsHeap heap }
        ensures heap { IfOk result (λ machine. machine.heap ≡ heap) }
        ensures opening { IfOk result (λ machine. IsOpening heap machine.state) }
    {
        let words = opening_words(alloc, &heap)?;
        let seats = opening_seats(alloc, &heap)?;
        Ok(Machine {
            heap,
            words,
            seats,
            collector: CollectorParty::opening(alloc),
        })
    }
}

/// The heap's seats at the opening.
fn opening_seats<L: CountsEntries>(alloc: Global, heap: &Heap) -> Result<Vec<SeatParty<L>>, Memory>
    requires { IsHeap heap.now }
    ensures { IfOk result (λ seats. map (λ s. s.seat) seats.items ≡ map (opening_seat heap.now) (range_with_len 0 heap.now.seats)) }
{
    let mut seats = Vec::new(alloc);
    for number in 0..heap.seats {
        seats.push(SeatParty::opening(alloc, heap, number))?;
    }
    Ok(seats)
}

/// The words of the heap's table at the opening, in the order of the table.
pub fn opening_words(alloc: Global, heap: &Heap) -> Result<Vec<u64>, Memory>
    requires { IsHeap heap.now }
    ensures length { IfOk result (λ words. length words.items ≡ table_length heap.now) }
    ensures wide { IfOk result (λ words. All (λ word. word < 2 ^ 64) words.items) }
    ensures open { IfOk result (λ words. (a : Address) → InTable heap.now a → at heap.now words.items a ≡ opening_word heap.now a) }
{
    let length = 19 + 65 * heap.groups as usize + 4 * heap.spine as usize;
    let mut words = vec![in alloc; 0; length]?;
    write_opening(words.as_mut_slice(), heap);
    Ok(words)
}

/// Writes what a table of zeros lacks.
fn write_opening(words: &mut [u64], heap: &Heap)
    requires limits { IsHeap heap.now }
    requires zeros { words.old ≡ replicate (table_length heap.now) 0 }
    ensures length { length words.new ≡ table_length heap.now }
    ensures wide { All (λ word. word < 2 ^ 64) words.new }
    ensures open { (a : Address) → InTable heap.now a → at heap.now words.new a ≡ opening_word heap.now a }
{
    leave_without_seats(words, heap);
    let spot = Spot { half: 0, offset: 0 };
    store(words, heap, Address::Spot, spot.pack());
    let bits = u16::MAX >> (16 - heap.board_fragments());
    let board = Group {
        taken: bits,
        born: bits,
        marked: 0,
        scanned: 0,
    };
    store(words, heap, Address::Control(0), board.pack());
    store_board(words, heap);
}

/// Each number that no seat has, has left.
fn leave_without_seats(words: &mut [u64], heap: &Heap)
    requires limits { IsHeap heap.now }
    requires table { length words.old ≡ table_length heap.now }
    ensures table { length words.new ≡ table_length heap.now }
    ensures left { (a : Address) → InTable heap.now a → at heap.now words.new a ≡ with_left heap.now most_seats a (at heap.now words.old a) }
{
    for number in heap.seats..MOST_SEATS {
        store(words, heap, Address::Answer(number), LEFT);
    }
}

/// Writes the words of the board.
fn store_board(words: &mut [u64], heap: &Heap)
    requires limits { IsHeap heap.now }
    requires table { length words.old ≡ table_length heap.now }
    ensures table { length words.new ≡ table_length heap.now }
    ensures board { (a : Address) → InTable heap.now a → at heap.now words.new a ≡ with_board heap.now (4 * board_fragments heap.now) a (at heap.now words.old a) }
{
    let fragments = heap.board_fragments() as u16;
    let board = Newborn {
        name: Name { owner: 0, count: 0 },
        fields: heap.board_fields(),
        fragments: &FIRST_GROUP[..fragments as usize],
    };
    for position in 0..4 * fragments {
        let fragment = position / 4;
        let part = (position % 4) as u8;
        let word = board.word(fragment as usize, part);
        store(words, heap, Address::Word { fragment, part }, word);
    }
}
