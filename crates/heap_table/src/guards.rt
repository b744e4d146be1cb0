ghost use Rattle.std.specs.Prelude.{◌≡◌, ℕ, ◌<◌, Some, IfSome, if◌then◌else◌};
ghost use Rattle.heap_model.specs.Limits.{register_count};
ghost use Rattle.core_machine.specs.declared.point.Access.TheVariants.{LoadingOld, Swapping, Replacing};
ghost use Rattle.core_machine.specs.declared.step.AccessStep.TheVariants.{Shade};
ghost use Rattle.core_machine.specs.declared.step.Step.TheVariants.{Access};
ghost use Rattle.core_machine.specs.Moves.{due_step};
ghost use Rattle.core_machine.specs.seat.Access.{field_point_of, guard_point_of, has_barrier_of};
ghost use Rattle.core_machine.specs.seat.Commands.{expected_of, source_of};
ghost use Rattle.heap_table.specs.Ahead.{seat_in, Leads, IsAtField, StandsAt, IsShaded};
ghost use Rattle.heap_table.specs.SeatHeld.{KeepsSeat};

use crate::ahead::step_next;
use crate::rule::{Token, Words};
use crate::way::{Place, referred};
use core_machine::{AccessStep, Entries, SeatParty, Step};
use heap_model::{Command, Heap};

/// Shades the fragment, where there is one to shade.
#[inline(always)]
fn shade_if(table: &Words, token: &mut Token, heap: &Heap, number: u8, fragment: Option<u16>)
    requires keeps { KeepsSeat table.now.table_id table.now.key token.old.table_id token.old.me heap.now number (seat_in token.old.me) }
    requires due { IfSome fragment (λ f. due_step heap.now number (seat_in token.old.me) ≡ Some (Access (Shade f))) }
    ensures same { token.new.table_id ≡ token.old.table_id }
    ensures keeps { KeepsSeat table.now.table_id table.now.key token.new.table_id token.new.me heap.now number (seat_in token.new.me) }
    ensures shaded { IsShaded heap.now number fragment (seat_in token.old.me) (seat_in token.new.me) }
    ensures leads { Leads heap.now number (seat_in token.old.me) (seat_in token.new.me) }
{
    let Some(fragment) = fragment else {
        return;
    };
    let shade = Step::Access(AccessStep::Shade { fragment });
    step_next(table, token, heap, number, &shade);
}

/// Loads what a set is to take out of its field, and shades that and what it puts in.
#[cold]
fn shade_both<L: Entries>(
    table: &Words,
    token: &mut Token,
    heap: &Heap,
    number: u8,
    party: &SeatParty<L>,
    command: &Command,
    place: Place,
    v: u8,
)
    requires keeps { KeepsSeat table.now.table_id table.now.key token.old.table_id token.old.me heap.now number (seat_in token.old.me) }
    requires source { source_of command.now ≡ v }
    requires register { v < register_count }
    requires at { StandsAt party.now.seat command.now place.fragment place.part party.now.seat.loaded LoadingOld (seat_in token.old.me) }
    ensures same { token.new.table_id ≡ token.old.table_id }
    ensures keeps { KeepsSeat table.now.table_id table.now.key token.new.table_id token.new.me heap.now number (seat_in token.new.me) }
    ensures at { (loaded : ℕ) × StandsAt party.now.seat command.now place.fragment place.part loaded Swapping (seat_in token.new.me) }
    ensures leads { Leads heap.now number (seat_in token.old.me) (seat_in token.new.me) }
{
    let load = Step::Access(AccessStep::OldLoad {
        fragment: place.fragment,
        part: place.part,
    });
    let old = step_next(table, token, heap, number, &load);
    shade_if(table, token, heap, number, referred(old));
    let new = party.register(v).head();
    shade_if(table, token, heap, number, new);
}

/// Where the barrier is on, shades what a set takes out of its field and what it puts in.
#[inline(always)]
pub(crate) fn guard_set<L: Entries>(
    table: &Words,
    token: &mut Token,
    heap: &Heap,
    number: u8,
    party: &SeatParty<L>,
    command: &Command,
    place: Place,
    v: u8,
)
    requires keeps { KeepsSeat table.now.table_id table.now.key token.old.table_id token.old.me heap.now number (seat_in token.old.me) }
    requires sets { field_point_of (record party.now.seat { command = command.now }) command.now ≡ (if has_barrier_of party.now.seat then LoadingOld else Swapping) }
    requires source { source_of command.now ≡ v }
    requires register { v < register_count }
    requires at { IsAtField party.now.seat command.now place.fragment place.part (seat_in token.old.me) }
    ensures same { token.new.table_id ≡ token.old.table_id }
    ensures keeps { KeepsSeat table.now.table_id table.now.key token.new.table_id token.new.me heap.now number (seat_in token.new.me) }
    ensures at { (loaded : ℕ) × StandsAt party.now.seat command.now place.fragment place.part loaded Swapping (seat_in token.new.me) }
    ensures leads { Leads heap.now number (seat_in token.old.me) (seat_in token.new.me) }
{
    if !party.has_barrier() {
        return;
    }
    shade_both(table, token, heap, number, party, command, place, v);
}

/// Shades what a compare and swap expects in its field, and what it puts in.
#[cold]
fn shade_sides<L: Entries>(
    table: &Words,
    token: &mut Token,
    heap: &Heap,
    number: u8,
    party: &SeatParty<L>,
    command: &Command,
    place: Place,
    a: u8,
    v: u8,
)
    requires keeps { KeepsSeat table.now.table_id table.now.key token.old.table_id token.old.me heap.now number (seat_in token.old.me) }
    requires expected { expected_of command.now ≡ a }
    requires source { source_of command.now ≡ v }
    requires registers { (a < register_count) × (v < register_count) }
    requires at { StandsAt party.now.seat command.now place.fragment place.part party.now.seat.loaded (guard_point_of (record party.now.seat { command = command.now })) (seat_in token.old.me) }
    ensures same { token.new.table_id ≡ token.old.table_id }
    ensures keeps { KeepsSeat table.now.table_id table.now.key token.new.table_id token.new.me heap.now number (seat_in token.new.me) }
    ensures at { StandsAt party.now.seat command.now place.fragment place.part party.now.seat.loaded Replacing (seat_in token.new.me) }
    ensures leads { Leads heap.now number (seat_in token.old.me) (seat_in token.new.me) }
{
    let expected = party.register(a).head();
    shade_if(table, token, heap, number, expected);
    let new = party.register(v).head();
    shade_if(table, token, heap, number, new);
}

/// Where the barrier is on, shades what a compare and swap expects in its field and what it puts in.
#[inline(always)]
pub(crate) fn guard_cas<L: Entries>(
    table: &Words,
    token: &mut Token,
    heap: &Heap,
    number: u8,
    party: &SeatParty<L>,
    command: &Command,
    place: Place,
    a: u8,
    v: u8,
)
    requires keeps { KeepsSeat table.now.table_id table.now.key token.old.table_id token.old.me heap.now number (seat_in token.old.me) }
    requires compares { field_point_of (record party.now.seat { command = command.now }) command.now ≡ (if has_barrier_of party.now.seat then guard_point_of (record party.now.seat { command = command.now }) else Replacing) }
    requires expected { expected_of command.now ≡ a }
    requires source { source_of command.now ≡ v }
    requires registers { (a < register_count) × (v < register_count) }
    requires at { IsAtField party.now.seat command.now place.fragment place.part (seat_in token.old.me) }
    ensures same { token.new.table_id ≡ token.old.table_id }
    ensures keeps { KeepsSeat table.now.table_id table.now.key token.new.table_id token.new.me heap.now number (seat_in token.new.me) }
    ensures at { StandsAt party.now.seat command.now place.fragment place.part party.now.seat.loaded Replacing (seat_in token.new.me) }
    ensures leads { Leads heap.now number (seat_in token.old.me) (seat_in token.new.me) }
{
    if !party.has_barrier() {
        return;
    }
    shade_sides(table, token, heap, number, party, command, place, a, v);
}
