ghost use Rattle.std.specs.Prelude.{◌≡◌, true, Some, map, length, IfOk, MatchResult, All};
ghost use Rattle.heap_model.specs.Heap.{IsHeap};
ghost use Rattle.mutator_seat.specs.Resting.{IsBetweenCalls};
ghost use Rattle.fodderpause_c.specs.declared.party.Party.TheVariants.{OfSeat};
ghost use Rattle.fodderpause_c.specs.declared.refusal.Refusal.TheVariants.{OutOfRange};
ghost use Rattle.fodderpause_c.specs.Opening.{are_bare, boxed_in, behind, heap_with, IsHeapOf, Opens, OpensHeap, OpensWith};

use crate::codes::{answer_code, refusal_code};
use crate::handle::Handle;
use crate::party::Party;
use crate::refusal::Refusal;
use core_machine::LastLog;
use heap_model::{Heap, Memory};
use heap_table::{HeapTable, Holder};
use mutator_seat::Seat;
use std::alloc::Global;

/// Whether there is nothing behind any of the handles.
fn all_bare(handles: &[Handle]) -> bool
    ensures { result ≡ are_bare handles.now }
{
    handles.iter().all(|handle| !handle.is_held())
}

/// A box for the party.
fn box_of(alloc: Global, party: Party) -> Result<Box<Party, Global>, Memory>
    ensures { IfOk result (λ boxed. boxed.value ≡ party) }
{
    match Box::new(alloc, party) {
        Ok(boxed) => Ok(boxed),
        Err(_) => Err(Memory),
    }
}

/// A box for each of the seats of a table that opens.
fn boxed(alloc: Global, holders: Vec<Holder<LastLog>>) -> Result<Vec<Box<Party, Global>>, Memory>
    requires { All IsBetweenCalls holders.items }
    ensures { IfOk result (λ boxes. boxed_in boxes.items ≡ map OfSeat holders.items) }
{
    let mut boxes = Vec::new(alloc);
    for holder in holders {
        let boxed = box_of(alloc, Party::OfSeat(Seat::make(holder)))?;
        boxes.push(boxed)?;
    }
    Ok(boxes)
}

/// Puts each box behind its handle.
fn put_all(handles: &mut [Handle], boxes: Vec<Box<Party, Global>>)
    requires each { length boxes.items ≡ length handles.old }
    requires bare { are_bare handles.old ≡ true }
    ensures { behind handles.new ≡ map Some (boxed_in boxes.items) }
{
    let mut boxes = boxes;
    while let Some(party) = boxes.pop() {
        handles[boxes.len()].put(party);
    }
}

/// What a heap opens with: the box of its collector, and those of its seats, in their order.
#[derive(Drop)]
struct Opening {
    collector: Box<Party, Global>,
    seats: Vec<Box<Party, Global>>,
}

/// Makes these boxes.
fn make_parties(alloc: Global, heap: Heap) -> Result<Opening, Memory>
    requires { IsHeap heap }
    ensures { IfOk result (λ made. OpensWith heap made.collector.value (boxed_in made.seats.items)) }
{
    let (holders, holder) = HeapTable::make_told(alloc, heap)?;
    let seats = boxed(alloc, holders)?;
    let collector = box_of(alloc, Party::OfCollector(holder))?;
    Ok(Opening { collector, seats })
}

/// Opens a heap, and puts its collector and its seats behind these handles.
fn open(
    alloc: Global,
    heap: Heap,
    collector: &mut Handle,
    seats: &mut [Handle],
) -> Result<(), Refusal>
    requires limits { IsHeap heap }
    requires each { length seats.old ≡ heap.seats }
    ensures { Opens heap collector.old.pointer.party collector.new.pointer.party seats.old seats.new result }
{
    if collector.is_held() || !all_bare(seats) {
        return Err(Refusal::IsHeld);
    }
    let Ok(made) = make_parties(alloc, heap) else {
        return Err(Refusal::NoMemory);
    };
    collector.put(made.collector);
    put_all(seats, made.seats);
    Ok(())
}

/// The heap of these sizes, with a seat for each handle.
fn heap_of(groups: u32, spine: u32, handles: usize, board: u32) -> Result<Heap, Refusal>
    ensures { MatchResult result (IsHeapOf groups spine handles board) (λ refusal. (refusal ≡ OutOfRange) × (¬ IsHeap (heap_with groups spine handles board))) }
{
    let (Ok(groups), Ok(spine)) = (u16::try_from(groups), u16::try_from(spine)) else {
        return Err(Refusal::OutOfRange);
    };
    let (Ok(seats), Ok(board)) = (u8::try_from(handles), u8::try_from(board)) else {
        return Err(Refusal::OutOfRange);
    };
    match Heap::make(groups, spine, seats, board) {
        Some(heap) => Ok(heap),
        None => Err(Refusal::OutOfRange),
    }
}

/// Opens a heap of so many groups of fragments, spine words and fields of the board: its collector is behind the one handle then, and a seat behind each of the others, in their order.
#[unsafe(no_mangle)]
pub extern "C" fn fodderpause_make(
    alloc: Global,
    groups: u32,
    spine: u32,
    board: u32,
    collector: &mut Handle,
    seats: &mut [Handle],
) -> u32
    ensures { OpensHeap groups spine board collector.old.pointer.party collector.new.pointer.party seats.old seats.new result }
{
    match heap_of(groups, spine, seats.len(), board) {
        Ok(heap) => answer_code(open(alloc, heap, collector, seats)),
        Err(refusal) => refusal_code(refusal),
    }
}
