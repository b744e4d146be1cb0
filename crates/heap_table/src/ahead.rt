ghost use Rattle.std.specs.Prelude.{◌≡◌, Some};
ghost use Rattle.core_machine.specs.Moves.{due_step};
ghost use Rattle.core_machine.specs.machine.Machine.{after_begin};
ghost use Rattle.heap_table.specs.Ahead.{seat_in};
ghost use Rattle.heap_table.specs.Begun.{next_seat};
ghost use Rattle.heap_table.specs.SeatHeld.{KeepsSeat};
ghost use Rattle.heap_table.specs.Told.{ToldAtStep};

use crate::rule::{Token, Words};
use crate::touch::touch;
use core_machine::Step;
use heap_model::{Command, Heap};
use std::marker::Brand;

/// Makes the first step of the command, which the seat of the token's view begins with it.
#[inline(always)]
pub(crate) fn step_first(
    table: &Words,
    token: &mut Token,
    heap: &Heap,
    number: u8,
    command: &Command,
    step: &Step,
) -> u64
    requires keeps { KeepsSeat table.now.table_id table.now.key token.old.table_id token.old.me heap.now number (after_begin heap.now (seat_in token.old.me) command.now) }
    requires due { due_step heap.now number (after_begin heap.now (seat_in token.old.me) command.now) ≡ Some step.now }
    ensures same { token.new.table_id ≡ token.old.table_id }
    ensures keeps { KeepsSeat table.now.table_id table.now.key token.new.table_id token.new.me heap.now number (seat_in token.new.me) }
    ensures seat { seat_in token.new.me ≡ next_seat heap.now number (after_begin heap.now (seat_in token.old.me) command.now) result }
    ensures told { ToldAtStep heap.now number (after_begin heap.now (seat_in token.old.me) command.now) result }
{
    let found = touch::<Brand, Command>(table, token, heap, step, number, command);
    found
}

/// Makes the next step of the call in which the seat of the token's view is.
#[inline(always)]
pub(crate) fn step_next(
    table: &Words,
    token: &mut Token,
    heap: &Heap,
    number: u8,
    step: &Step,
) -> u64
    requires keeps { KeepsSeat table.now.table_id table.now.key token.old.table_id token.old.me heap.now number (seat_in token.old.me) }
    requires due { due_step heap.now number (seat_in token.old.me) ≡ Some step.now }
    ensures same { token.new.table_id ≡ token.old.table_id }
    ensures keeps { KeepsSeat table.now.table_id table.now.key token.new.table_id token.new.me heap.now number (seat_in token.new.me) }
    ensures seat { seat_in token.new.me ≡ next_seat heap.now number (seat_in token.old.me) result }
    ensures told { ToldAtStep heap.now number (seat_in token.old.me) result }
{
    let found = touch::<Brand, Heap>(table, token, heap, step, number, heap);
    found
}
