//! The calls of a machine by which a trial is tried.

ghost use Rattle.std.specs.Prelude.{◌↔◌, ◌+◌, ◌*◌, ◌≤◌, IsTrue};
ghost use Rattle.heap_model.specs.Needs.{need_of};
ghost use Rattle.core_machine.specs.table.Layout.{InTable};

use crate::tests::comparing::same;
use core_machine::{Address, Machine, Step};
use heap_model::{Command, Entry, Heap, Inner, Reply, Turn};
use std::alloc::Global;
use std::process::Abort;
use std::test::Fail;

/// The machine of a heap of these sizes.
pub(super) fn machine_of(
    alloc: Global,
    groups: u16,
    spine: u16,
    seats: u8,
) -> Result<Machine, Fail> {
    let heap = Heap::make(groups, spine, seats, 32).ok_or("the limits")?;
    Ok(Machine::make(alloc, heap)?)
}

/// Room for the most entries that a call of the command adds.
fn room_for(command: &Command) -> usize
    ensures { 2 * need_of command.now + 4 ≤ result }
{
    2 * command.need() as usize + 4
}

/// The whole call of a seat, with room for its entries.
pub(super) fn call(machine: &mut Machine, seat: u8, command: &Command) -> Result<Reply, Fail> {
    if !machine.may_begin(seat, command) {
        return Err("the seat can't begin".into());
    }
    machine.room(seat, room_for(command))?;
    Ok(machine.play_call(seat, command))
}

/// The whole call of the seat is answered so, at this point of a test.
pub(super) fn is_answered(
    rt: &(impl Abort + AllocGlobal),
    machine: &mut Machine,
    seat: u8,
    command: Command,
    reply: Reply,
    point: u8,
) -> Result<(), Fail> {
    let at = format!(in rt.alloc(); "{point} {command:?}")?;
    same(rt, &call(machine, seat, &command)?, &reply, &at);
    Ok(())
}

/// Whether the seat's command is begun.
pub(super) fn begin(machine: &mut Machine, seat: u8, command: &Command) -> Result<bool, Fail> {
    if !machine.may_begin(seat, command) {
        return Ok(false);
    }
    machine.room(seat, room_for(command))?;
    machine.begin(seat, *command);
    Ok(true)
}

/// Whether the seat's inner call may be begun; where it may, it is made.
pub(super) fn inner(machine: &mut Machine, seat: u8, inner: Inner) -> Result<bool, Fail> {
    if !machine.may_begin_inner(seat, &inner) {
        return Ok(false);
    }
    machine.room(seat, 4)?;
    machine.play_inner(seat, inner);
    Ok(true)
}

/// The phase that the seat loaded last.
pub(super) fn seen(machine: &Machine, seat: u8) -> Result<u64, Fail> {
    if seat >= machine.heap().seats {
        return Err("no such seat".into());
    }
    Ok(machine.looks(seat).seen)
}

/// The party's due step.
pub(super) fn due(machine: &Machine, party: u8) -> Result<Step, Fail> {
    if party > machine.heap().seats {
        return Err("no such party".into());
    }
    Ok(machine.due(party).ok_or("nothing is due")?)
}

/// The party's due step, which is made, and the word that it found.
pub(super) fn step(machine: &mut Machine, party: u8) -> Result<(Step, u64), Fail> {
    if party > machine.heap().seats {
        return Err("no such party".into());
    }
    machine.room(party, 2)?;
    let due = machine.due(party).ok_or("nothing is due")?;
    let found = machine.step(party, &due);
    Ok((due, found))
}

/// The collector's turn, with room for its entry.
pub(super) fn turn(machine: &mut Machine) -> Result<Turn, Fail> {
    let collector = machine.heap().seats;
    machine.room(collector, 2)?;
    Ok(machine.play_turn())
}

/// The party's entries.
pub(super) fn log(machine: &Machine, party: u8) -> Result<&[Entry], Fail> {
    if party > machine.heap().seats {
        return Err("no such party".into());
    }
    Ok(machine.log(party))
}

/// Where the word of the address stands in the table, and what it is.
pub(super) fn word(machine: &Machine, address: Address) -> Result<(usize, u64), Fail> {
    let heap = machine.heap();
    if !has_word(&heap, &address) {
        return Err("no such word".into());
    }
    Ok((address.index(&heap), machine.word(address)))
}

/// Whether the heap has such a word.
fn has_word(heap: &Heap, address: &Address) -> bool
    ensures { IsTrue result ↔ InTable heap.now address.now }
{
    match *address {
        Address::Phase | Address::Budget | Address::Spot => true,
        Address::Answer(seat) => seat < 16,
        Address::Control(group) => group < heap.groups,
        Address::Word { fragment, part } => (fragment as u32) < 16 * heap.groups as u32 && part < 4,
        Address::Spine { half, .. } => half < 2,
    }
}
