ghost use Rattle.std.specs.Prelude.{◌≡◌};
ghost use Rattle.heap_model.specs.declared.command.Command.TheVariants.{New, Array, Get, Set, Cas, Num, Nil, Copy, Same, Len, Poll, Leave};
ghost use Rattle.fodderpause_c.specs.Asked.{asked_command};
ghost use Rattle.fodderpause_c.specs.Calls.{Calls};
ghost use Rattle.fodderpause_c.specs.Parties.{OnSeat, ShowsSeat};
ghost use Rattle.fodderpause_c.specs.Replies.{made_shown, cell_shown, swap_shown, number_shown, poll_shown};

use crate::asked::Asked;
use crate::command_work::CommandWork;
use crate::handle::Handle;
use crate::phases::Phase;
use crate::refusal::Refusal;
use crate::replies::{Cell, Made, Number, Swap};
use crate::seat_work::on_seat;
use heap_model::Reply;
use std::alloc::Global;

/// Calls the seat behind the handle by what is asked. It stands within each export, which so knows its own command.
#[inline(always)]
fn call(alloc: Global, seat: &mut Handle, asked: Asked) -> Result<Reply, Refusal>
    ensures { OnSeat (Calls (asked_command asked)) seat.old.pointer.party seat.new.pointer.party result }
{
    on_seat(alloc, seat, &CommandWork { asked })
}

/// Makes a record of nil fields, which register `d` then holds.
#[unsafe(no_mangle)]
pub extern "C" fn fodderpause_new_record(
    alloc: Global,
    seat: &mut Handle,
    d: u32,
    fields: u32,
) -> Made
    ensures { ShowsSeat (Calls (New d fields)) made_shown seat.old.pointer.party seat.new.pointer.party result }
{
    Made::of(call(alloc, seat, Asked::New { d, fields }))
}

/// Makes an array of nil cells, which register `d` then holds.
#[unsafe(no_mangle)]
pub extern "C" fn fodderpause_new_array(
    alloc: Global,
    seat: &mut Handle,
    d: u32,
    cells: u32,
) -> Made
    ensures { ShowsSeat (Calls (Array d cells)) made_shown seat.old.pointer.party seat.new.pointer.party result }
{
    Made::of(call(alloc, seat, Asked::Array { d, cells }))
}

/// Reads the cell `i` of what register `r` holds into register `d`.
#[unsafe(no_mangle)]
pub extern "C" fn fodderpause_get(alloc: Global, seat: &mut Handle, d: u32, r: u32, i: u32) -> Cell
    ensures { ShowsSeat (Calls (Get d r i)) cell_shown seat.old.pointer.party seat.new.pointer.party result }
{
    Cell::of(call(alloc, seat, Asked::Get { d, r, i }))
}

/// Sets the cell `i` of what register `r` holds to what register `v` holds.
#[unsafe(no_mangle)]
pub extern "C" fn fodderpause_set(
    alloc: Global,
    seat: &mut Handle,
    r: u32,
    i: u32,
    v: u32,
) -> Number
    ensures { ShowsSeat (Calls (Set r i v)) number_shown seat.old.pointer.party seat.new.pointer.party result }
{
    Number::of(call(alloc, seat, Asked::Set { r, i, v }))
}

/// Sets it exactly where it still is as register `a` was read.
#[unsafe(no_mangle)]
pub extern "C" fn fodderpause_cas(
    alloc: Global,
    seat: &mut Handle,
    r: u32,
    i: u32,
    a: u32,
    v: u32,
) -> Swap
    ensures { ShowsSeat (Calls (Cas r i a v)) swap_shown seat.old.pointer.party seat.new.pointer.party result }
{
    Swap::of(call(alloc, seat, Asked::Cas { r, i, a, v }))
}

/// Puts a number into register `d`.
#[unsafe(no_mangle)]
pub extern "C" fn fodderpause_load_number(
    alloc: Global,
    seat: &mut Handle,
    d: u32,
    n: u64,
) -> Number
    ensures { ShowsSeat (Calls (Num d n)) number_shown seat.old.pointer.party seat.new.pointer.party result }
{
    Number::of(call(alloc, seat, Asked::Num { d, n }))
}

/// Puts nil into register `d`.
#[unsafe(no_mangle)]
pub extern "C" fn fodderpause_nil(alloc: Global, seat: &mut Handle, d: u32) -> Number
    ensures { ShowsSeat (Calls (Nil d)) number_shown seat.old.pointer.party seat.new.pointer.party result }
{
    Number::of(call(alloc, seat, Asked::Nil { d }))
}

/// Puts what register `r` holds into register `d`.
#[unsafe(no_mangle)]
pub extern "C" fn fodderpause_copy(alloc: Global, seat: &mut Handle, d: u32, r: u32) -> Number
    ensures { ShowsSeat (Calls (Copy d r)) number_shown seat.old.pointer.party seat.new.pointer.party result }
{
    Number::of(call(alloc, seat, Asked::Copy { d, r }))
}

/// Whether registers `a` and `b` hold the same.
#[unsafe(no_mangle)]
pub extern "C" fn fodderpause_same(alloc: Global, seat: &mut Handle, a: u32, b: u32) -> Number
    ensures { ShowsSeat (Calls (Same a b)) number_shown seat.old.pointer.party seat.new.pointer.party result }
{
    Number::of(call(alloc, seat, Asked::Same { a, b }))
}

/// The length of what register `r` holds.
#[unsafe(no_mangle)]
pub extern "C" fn fodderpause_length(alloc: Global, seat: &mut Handle, r: u32) -> Number
    ensures { ShowsSeat (Calls (Len r)) number_shown seat.old.pointer.party seat.new.pointer.party result }
{
    Number::of(call(alloc, seat, Asked::Len { r }))
}

/// Answers the phase, and tells it.
#[unsafe(no_mangle)]
pub extern "C" fn fodderpause_poll(alloc: Global, seat: &mut Handle) -> Phase
    ensures { ShowsSeat (Calls Poll) poll_shown seat.old.pointer.party seat.new.pointer.party result }
{
    Phase::of_poll(call(alloc, seat, Asked::Poll))
}

/// The seat leaves for good: it gives back what it keeps, and its registers are nil.
#[unsafe(no_mangle)]
pub extern "C" fn fodderpause_leave(alloc: Global, seat: &mut Handle) -> Number
    ensures { ShowsSeat (Calls Leave) number_shown seat.old.pointer.party seat.new.pointer.party result }
{
    Number::of(call(alloc, seat, Asked::Leave))
}
