ghost use Rattle.std.specs.Prelude.{◌≡◌, ◌%◌, ◌<◌, ◌≤◌, ◌^◌, IfSome, IfOk, IfErr};
ghost use Rattle.heap_model.specs.Limits.{last_index};
ghost use Rattle.heap_words.specs.Loaded.{array_length_of, head_of, pointer_in};
ghost use Rattle.core_machine.specs.machine.Machine.{after_begin};
ghost use Rattle.core_machine.specs.seat.Access.{after_length};
ghost use Rattle.core_machine.specs.seat.Commands.{field_of};
ghost use Rattle.core_machine.specs.table.Decode.{IsWithinHeap};
ghost use Rattle.heap_table.specs.Ahead.{seat_in, Leads, at_head, at_sentinel, on_way, IsAtField, BeginsAt};
ghost use Rattle.heap_table.specs.Begun.{next_seat};
ghost use Rattle.heap_table.specs.SeatHeld.{KeepsSeat};
ghost use Rattle.heap_table.specs.Told.{ToldAtStep};

use crate::ahead::{step_first, step_next};
use crate::rule::{Token, Words};
use core_machine::{AccessStep, Entries, SeatParty, SpineStep, Step};
use heap_model::{Command, Heap};
use heap_words::{Meta, Spot, array_length, head_in, link_in, payload};

/// The word in which a field stands.
#[derive(Clone, Copy)]
pub(crate) struct Place {
    pub(crate) fragment: u16,
    pub(crate) part: u8,
}

/// Where a call stands on its way to that word.
#[derive(Clone, Copy)]
struct Way {
    fragment: u16,
    links: u32,
    part: u8,
}

/// The first fragment of the object that a field refers to.
#[inline(always)]
pub(crate) fn referred(word: u64) -> Option<u16>
    requires { IfSome (head_of word) (λ head. head < 2 ^ 16) }
    ensures { result ≡ head_of word }
{
    let head = head_in(word)?;
    Some(head as u16)
}

/// Follows the links that are left, and answers the fragment to which they lead.
fn follow<L: Entries>(
    table: &Words,
    token: &mut Token,
    heap: &Heap,
    number: u8,
    party: &SeatParty<L>,
    command: &Command,
    way: Way,
) -> u16
    requires keeps { KeepsSeat table.now.table_id table.now.key token.old.table_id token.old.me heap.now number (seat_in token.old.me) }
    requires at { seat_in token.old.me ≡ on_way party.now.seat command.now way.fragment way.links way.part party.now.seat.address }
    ensures same { token.new.table_id ≡ token.old.table_id }
    ensures keeps { KeepsSeat table.now.table_id table.now.key token.new.table_id token.new.me heap.now number (seat_in token.new.me) }
    ensures at { seat_in token.new.me ≡ on_way party.now.seat command.now result 0 way.part party.now.seat.address }
    ensures leads { Leads heap.now number (seat_in token.old.me) (seat_in token.new.me) }
{
    let mut fragment = way.fragment;
    let mut left = way.links;
    while left > 0 {
        let walk = Step::Access(AccessStep::WalkLoad { fragment });
        let link = step_next(table, token, heap, number, &walk);
        fragment = link_in(link);
        left -= 1;
    }
    fragment
}

/// Goes by the array's spine to its cell, and answers the cell's fragment.
fn find_cell<L: Entries>(
    table: &Words,
    token: &mut Token,
    heap: &Heap,
    number: u8,
    party: &SeatParty<L>,
    command: &Command,
    head: u16,
    cell: u32,
) -> u16
    requires keeps { KeepsSeat table.now.table_id table.now.key token.old.table_id token.old.me heap.now number (seat_in token.old.me) }
    requires at { seat_in token.old.me ≡ at_sentinel party.now.seat command.now head }
    requires cell { field_of command.now ≡ cell }
    requires within { cell ≤ last_index }
    ensures same { token.new.table_id ≡ token.old.table_id }
    ensures keeps { KeepsSeat table.now.table_id table.now.key token.new.table_id token.new.me heap.now number (seat_in token.new.me) }
    ensures at { IsAtField party.now.seat command.now result (cell % 4) (seat_in token.new.me) }
    ensures leads { Leads heap.now number (seat_in token.old.me) (seat_in token.new.me) }
{
    let place = Step::Spine(SpineStep::AddressLoad { sentinel: head });
    let address = step_next(table, token, heap, number, &place);
    let spot = Spot::told(address);
    let index = Step::Spine(SpineStep::WordLoad {
        half: spot.half,
        offset: spot.offset + cell / 4,
    });
    let word = step_next(table, token, heap, number, &index);
    payload(word)
}

/// Goes on from the meta of an object that has the field.
#[inline(always)]
fn reach<L: Entries>(
    table: &Words,
    token: &mut Token,
    heap: &Heap,
    number: u8,
    party: &SeatParty<L>,
    command: &Command,
    head: u16,
    field: u32,
    meta: u64,
) -> Place
    requires keeps { KeepsSeat table.now.table_id table.now.key token.old.table_id token.old.me heap.now number (seat_in token.old.me) }
    requires at { seat_in token.old.me ≡ after_length (at_head party.now.seat command.now head) meta (array_length_of meta) }
    requires field { field_of command.now ≡ field }
    requires within { field ≤ last_index }
    requires leads { IsWithinHeap heap.now (pointer_in 0 meta) }
    ensures same { token.new.table_id ≡ token.old.table_id }
    ensures keeps { KeepsSeat table.now.table_id table.now.key token.new.table_id token.new.me heap.now number (seat_in token.new.me) }
    ensures at { IsAtField party.now.seat command.now result.fragment result.part (seat_in token.new.me) }
    ensures leads { Leads heap.now number (seat_in token.old.me) (seat_in token.new.me) }
{
    if array_length(meta).is_some() {
        let fragment = find_cell(table, token, heap, number, party, command, head, field);
        let part = (field % 4) as u8;
        return Place { fragment, part };
    }
    let part = ((field + 1) % 3 + 1) as u8;
    if field < 2 {
        return Place {
            fragment: head,
            part,
        };
    }
    let way = Way {
        fragment: link_in(meta),
        links: (field + 1) / 3 - 1,
        part,
    };
    let fragment = follow(table, token, heap, number, party, command, way);
    Place { fragment, part }
}

/// Begins the command and goes to its field, where its object has it. Else the error is the object's meta, which the first step has found.
#[inline(always)]
pub(crate) fn find_field<L: Entries>(
    table: &Words,
    token: &mut Token,
    heap: &Heap,
    number: u8,
    party: &SeatParty<L>,
    command: &Command,
    head: u16,
    field: u32,
) -> Result<Place, u64>
    requires keeps { KeepsSeat table.now.table_id table.now.key token.old.table_id token.old.me heap.now number (after_begin heap.now (seat_in token.old.me) command.now) }
    requires seat { seat_in token.old.me ≡ party.now.seat }
    requires begins { BeginsAt heap.now party.now.seat command.now head field }
    ensures same { token.new.table_id ≡ token.old.table_id }
    ensures keeps { KeepsSeat table.now.table_id table.now.key token.new.table_id token.new.me heap.now number (seat_in token.new.me) }
    ensures leads { Leads heap.now number (after_begin heap.now party.now.seat command.now) (seat_in token.new.me) }
    ensures found { IfOk result (λ place. IsAtField party.now.seat command.now place.fragment place.part (seat_in token.new.me)) }
    ensures missing { IfErr result (λ meta. (seat_in token.new.me ≡ next_seat heap.now number (after_begin heap.now party.now.seat command.now) meta) × ToldAtStep heap.now number (after_begin heap.now party.now.seat command.now) meta) }
{
    let walk = Step::Access(AccessStep::WalkLoad { fragment: head });
    let meta = step_first(table, token, heap, number, command, &walk);
    if field >= u32::from(Meta::length_in(meta)) {
        return Err(meta);
    }
    Ok(reach(
        table, token, heap, number, party, command, head, field, meta,
    ))
}
