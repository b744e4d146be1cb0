//! Arrays are made by gathering and bearing, and a cell of one is reached through its spine, and spine words are refused.

ghost use Rattle.std.specs.Prelude.{◌≡◌, ◌≤◌, []};
ghost use Rattle.heap_model.specs.declared.command.Command.TheVariants.{Array};
ghost use Rattle.heap_model.specs.Needs.{spine_need_of};

use super::{has, kept, lone_seat, no_fragments, takes_in_vain, tells};
use crate::tests::comparing::same;
use array_spine::{SpineFull, bear_array, cell_at, drop_budget, take_budget};
use core_machine::Access;
use frag_claim::{Hand, gather};
use heap_model::{Command, Entry, Id, Memory};
use heap_table::Holder;
use object_chain::Place;
use std::alloc::Global;
use std::process::Abort;
use std::test::Fail;

/// Makes an array of so many cells for register 1, by gathering and bearing, or tells that its spine words are refused; none where it may not be begun, or
/// fragments are too few.
fn make_array(
    holder: &mut Holder,
    hand: &mut Hand,
    cells: u16,
    words: u16,
) -> Result<Option<Result<Id, SpineFull>>, Memory>
    requires words { spine_need_of (Array 1 cells) ≡ words }
    requires few { words ≤ 1024 }
    requires empty { hand.old.fragments.items ≡ [] }
{
    let command = Command::Array { d: 1, cells };
    let need = words + 1;
    holder.room(2 * usize::from(need) + 4)?;
    if !holder.may_begin(&command) {
        return Ok(None);
    }
    holder.begin(command);
    // What is true of every seat's data is known from here on.
    let _ = holder.party();
    let mut reserve = kept(holder);
    let budget = match take_budget(holder, words) {
        Ok(budget) => budget,
        Err(full) => return Ok(Some(Err(full))),
    };
    match gather(holder, &mut reserve, hand, need) {
        Ok(()) => {
            let id = bear_array(holder, hand.fragments.as_slice(), cells, budget, 1);
            Ok(Some(Ok(id)))
        }
        Err(_) => {
            drop_budget(holder, budget);
            Ok(None)
        }
    }
}

/// Begins a get of the cell of the array in register 1, and goes to it; none where it has no such cell.
fn reach_cell(holder: &mut Holder, cell: u16) -> Result<Option<Place>, Memory> {
    let command = Command::Get {
        d: 2,
        r: 1,
        i: u32::from(cell),
    };
    holder.room(4)?;
    if !holder.may_begin(&command) {
        return Ok(None);
    }
    holder.begin(command);
    let Some(open) = holder.due() else {
        return Ok(None);
    };
    holder.step(&open);
    holder.room(3)?;
    let party = holder.party();
    let core_machine::Point::Access(Access::LoadingSpot) = party.point() else {
        return Ok(None);
    };
    let Command::Get { i, .. } = party.command() else {
        return Ok(None);
    };
    if i != u32::from(cell) {
        return Ok(None);
    }
    let sentinel = party.reached();
    Ok(Some(cell_at(holder, sentinel, cell)))
}

/// The seat tries to make an array of so many cells and spine words: this comes of it, and these fragments are in hand.
fn tries(
    rt: &impl Abort,
    holder: &mut Holder,
    cells: u16,
    words: u16,
    wanted: &Option<Result<Id, SpineFull>>,
    fragments: &[u16],
) -> Result<(), Memory>
    requires words { spine_need_of (Array 1 cells) ≡ words }
    requires few { words ≤ 1024 }
{
    let mut hand = no_fragments();
    let made = make_array(holder, &mut hand, cells, words)?;
    same(rt, &made, wanted, &cells);
    has(rt, &hand, fragments);
    Ok(())
}

/// The array is the seat's first object.
const MADE: Option<Result<Id, SpineFull>> = Some(Ok(Id::Made { seat: 0, count: 0 }));

/// So many spine words are refused, where so many are in use.
fn lacks_words(need: u32, used: u32) -> Option<Result<Id, SpineFull>> {
    Some(Err(SpineFull { need, used }))
}

/// The first fragments that the board leaves free.
const FREE: [u16; 5] = [11, 12, 13, 14, 15];

fn makes_one(rt: &impl Abort, alloc: Global, holder: &mut Holder) -> Result<(), Fail> {
    tries(rt, holder, 16, 4, &MADE, &FREE)?;
    tries(rt, holder, 1, 1, &lacks_words(1, 4), &[])?;
    let lines = [
        "0 takes 5",
        "0 array 1 16 = 0.0",
        "0 array 1 1 = spine need 1 used 4",
    ];
    tells(rt, alloc, holder, &lines)
}

/// The array gets the five free fragments of the first group and all four spine words: the next asks for one in vain.
#[test]
fn the_second_array_has_no_spine_words(rt: HostRuntime) -> Result<(), Fail> {
    let mut holder = lone_seat(rt.alloc(), 2, 4)?;
    makes_one(&rt, rt.alloc(), &mut holder)
}

fn makes_none(rt: &impl Abort, alloc: Global, holder: &mut Holder) -> Result<(), Fail> {
    tries(rt, holder, 4, 1, &lacks_words(1, 0), &[])?;
    let refusal = "0 array 1 4 = spine need 1 used 0";
    tells(rt, alloc, holder, &[refusal])
}

/// A heap without spine words refuses every array.
#[test]
fn no_array_without_spine_words(rt: HostRuntime) -> Result<(), Fail> {
    let mut holder = lone_seat(rt.alloc(), 2, 0)?;
    makes_none(&rt, rt.alloc(), &mut holder)
}

fn makes_a_smaller_one(rt: &impl Abort, alloc: Global, holder: &mut Holder) -> Result<(), Fail> {
    tries(rt, holder, 20, 5, &None, &[])?;
    let refusal = "0 array 1 20 = full need 6 found 5";
    takes_in_vain(rt, alloc, holder, refusal)?;
    tries(rt, holder, 16, 4, &MADE, &FREE)?;
    Ok(())
}

/// An array of twenty cells has six fragments, of which five are free: its five spine words are taken back, so that four of the eight are granted afterwards.
#[test]
fn an_array_without_fragments_gives_its_words_back(rt: HostRuntime) -> Result<(), Fail> {
    let mut holder = lone_seat(rt.alloc(), 1, 8)?;
    makes_a_smaller_one(&rt, rt.alloc(), &mut holder)
}

/// How often the seat took sixteen fragments.
fn whole_groups(holder: &Holder) -> usize {
    let takes = Entry::Takes { seat: 0, count: 16 };
    holder.log().iter().filter(|entry| **entry == takes).count()
}

fn makes_the_largest(rt: &impl Abort, holder: &mut Holder) -> Result<(), Memory> {
    let made = make_array(holder, &mut no_fragments(), 4096, 1024)?;
    same(rt, &made, &MADE, &"the largest");
    let counts = (holder.log().len(), whole_groups(holder));
    same(rt, &counts, &(66, 64), &"the entries, and the whole groups");
    Ok(())
}

fn reaches_its_last_cell(rt: &impl Abort, holder: &mut Holder) -> Result<(), Memory> {
    let last = Place {
        fragment: 1035,
        part: 3,
    };
    let found = reach_cell(holder, 4095)?;
    same(rt, &found, &Some(last), &"the last cell");
    let first = reach_cell(holder, 0)?;
    same(rt, &first, &None, &"a get before the last one is over");
    Ok(())
}

/// The largest array has 1,025 fragments: five of the first group and sixteen of each of 64 more, of which the last gives four to the reserve.
#[test]
fn the_largest_array_is_reached(rt: HostRuntime) -> Result<(), Fail> {
    let mut holder = lone_seat(rt.alloc(), 66, 1024)?;
    makes_the_largest(&rt, &mut holder)?;
    reaches_its_last_cell(&rt, &mut holder)?;
    Ok(())
}
