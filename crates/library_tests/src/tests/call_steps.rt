//! What calls on the shared table are made of, one after another by who holds the seat.

ghost use Rattle.std.specs.Prelude.{◌≡◌, ◌≤◌, []};
ghost use Rattle.heap_model.specs.declared.command.Command.TheVariants.{New};
ghost use Rattle.heap_model.specs.Needs.{need_of};
ghost use Rattle.library_tests.specs.SameSeat.{IsSameSeat};

mod arrays;
mod race;
mod records;

use super::checks::entry_of;
use super::comparing::same;
use arrayvec::ArrayVec;
use core_machine::Log;
use frag_claim::{Hand, Reserve, gather};
use heap_model::{Command, Full, Heap, Id, Memory};
use heap_table::{HeapTable, Holder};
use object_chain::bear_record;
use std::alloc::Global;
use std::process::Abort;
use std::test::Fail;

/// The only seat of a heap that opens.
fn lone_seat(alloc: Global, groups: u16, spine: u16) -> Result<Holder, Fail> {
    let heap = Heap::make(groups, spine, 1, 32).ok_or("the limits")?;
    let (mut holders, _) = HeapTable::make::<Log, Log>(alloc, heap)?;
    Ok(holders.pop().ok_or("a seat")?)
}

/// What the seat keeps.
fn kept(holder: &Holder) -> Reserve
    ensures fragments { result.fragments.items ≡ holder.now.seat.reserve }
    ensures cursor { result.cursor ≡ holder.now.seat.cursor }
{
    let party = holder.party();
    let mut fragments = ArrayVec::new();
    match fragments.try_extend_from_slice(party.reserve()) {
        Ok(()) => (),
        Err(_) => unreachable!(),
    }
    Reserve {
        fragments,
        cursor: party.cursor(),
    }
}

/// A hand with nothing in it.
fn no_fragments() -> Hand
    ensures { result.fragments.items ≡ [] }
{
    Hand {
        fragments: ArrayVec::new(),
    }
}

/// The log of the seat has these entries.
fn tells(rt: &impl Abort, alloc: Global, holder: &Holder, lines: &[&str]) -> Result<(), Fail> {
    let log = holder.log();
    same(rt, &log.len(), &lines.len(), &"the entries");
    for (entry, line) in log.iter().zip(lines) {
        same(rt, entry, &entry_of(alloc, line)?, line);
    }
    Ok(())
}

/// The seat took five fragments, gave them back, and told this refusal.
fn takes_in_vain(
    rt: &impl Abort,
    alloc: Global,
    holder: &Holder,
    refusal: &str,
) -> Result<(), Fail> {
    tells(rt, alloc, holder, &["0 takes 5", "0 gives back 5", refusal])
}

/// The hand has these fragments.
fn has(rt: &impl Abort, hand: &Hand, fragments: &[u16]) {
    same(rt, &hand.fragments.as_slice(), &fragments, &"the hand");
}

/// Makes the step that is due, if any.
fn make_step(holder: &mut Holder)
    requires { 2 ≤ holder.old.spare }
    ensures { IsSameSeat holder.old holder.new }
{
    if let Some(step) = holder.due() {
        holder.step(&step);
    }
}

/// Makes a record of so many fields for register 1, one after another, or tells that it is refused; none where it may not be begun.
fn make_record(
    holder: &mut Holder,
    hand: &mut Hand,
    fields: u16,
    need: u16,
) -> Result<Option<Result<Id, Full>>, Memory>
    requires need { need_of (New 1 fields) ≡ need }
    requires empty { hand.old.fragments.items ≡ [] }
    ensures { IsSameSeat holder.old holder.new }
{
    let command = Command::New { d: 1, fields };
    holder.room(2 * usize::from(need) + 4)?;
    if !holder.may_begin(&command) {
        return Ok(None);
    }
    // What is true of every seat's data is known from here on.
    let _ = holder.party();
    let mut reserve = kept(holder);
    holder.begin(command);
    match gather(holder, &mut reserve, hand, need) {
        Ok(()) => {
            let id = bear_record(holder, hand.fragments.as_slice(), fields, 1);
            Ok(Some(Ok(id)))
        }
        Err(full) => {
            make_step(holder);
            Ok(Some(Err(full)))
        }
    }
}

/// Makes a record of forty-seven fields, or is refused.
pub(super) fn make_long_record(holder: &mut Holder) -> Result<(), Memory>
    ensures { IsSameSeat holder.old holder.new }
{
    make_record(holder, &mut no_fragments(), 47, 16)?;
    Ok(())
}
