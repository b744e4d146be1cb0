//! A record of many fields is made and its last field is reached, and one is refused.

use super::{has, lone_seat, make_record, no_fragments, takes_in_vain, tells};
use crate::tests::comparing::same;
use core_machine::{Access, AccessStep, Step};
use frag_claim::Hand;
use heap_model::{Command, Full, Id, Memory};
use heap_table::Holder;
use heap_words::{Meta, array_length, link_in};
use object_chain::{Place, walk};
use std::alloc::Global;
use std::process::Abort;
use std::test::Fail;

/// Begins a get of a field of the record in register 1, and goes to it; none where there is no such record or field.
fn reach_field(holder: &mut Holder, field: u16) -> Result<Option<Place>, Memory> {
    let get = Command::Get {
        d: 2,
        r: 1,
        i: u32::from(field),
    };
    holder.room(2)?;
    if !holder.may_begin(&get) {
        return Ok(None);
    }
    holder.begin(get);
    let party = holder.party();
    let (core_machine::Point::Access(Access::LoadingMeta), Command::Get { i, .. }) = (
        party.point(),
        party.command(),
    ) else {
        return Ok(None);
    };
    if i != u32::from(field) {
        return Ok(None);
    }
    let head = party.reached();
    let word = holder.step(&Step::Access(AccessStep::WalkLoad { fragment: head }));
    let meta = Meta {
        array: false,
        length: Meta::length_in(word),
        next: link_in(word),
    };
    if array_length(word).is_some() || meta.length <= field {
        return Ok(None);
    }
    holder.room(3)?;
    Ok(Some(walk(holder, head, meta, field)))
}

/// The seat tries to make a record of forty-seven fields: this comes of it, and these fragments are in hand.
fn tries(
    rt: &impl Abort,
    holder: &mut Holder,
    wanted: Result<Id, Full>,
    fragments: &[u16],
) -> Result<(), Memory> {
    let mut hand = no_fragments();
    let made = make_record(holder, &mut hand, 47, 16)?;
    same(rt, &made, &Some(wanted), &"the record");
    has(rt, &hand, fragments);
    Ok(())
}

/// The seat keeps these fragments.
fn keeps(rt: &impl Abort, holder: &Holder, fragments: &[u16]) {
    let party = holder.party();
    same(rt, &party.reserve(), &fragments, &"the reserve");
}

/// The fragments of the record.
const GATHERED: [u16; 16] = [
    11, 12, 13, 14, 15, 16, 17, 18, 19, 20, 21, 22, 23, 24, 25, 26,
];

fn makes_it(rt: &impl Abort, alloc: Global, holder: &mut Holder) -> Result<(), Fail> {
    let first = Id::Made { seat: 0, count: 0 };
    tries(rt, holder, Ok(first), &GATHERED)?;
    keeps(rt, holder, &[27, 28, 29, 30, 31]);
    same(rt, &holder.party().cursor(), &1, &"the cursor");
    let lines = ["0 takes 5", "0 takes 16", "0 new 1 47 = 0.0"];
    tells(rt, alloc, holder, &lines)
}

fn reaches_its_last_field(rt: &impl Abort, holder: &mut Holder) -> Result<(), Memory> {
    let last = Place {
        fragment: 26,
        part: 3,
    };
    let found = reach_field(holder, 46)?;
    same(rt, &found, &Some(last), &"the last field");
    Ok(())
}

/// The board has fragments 0 to 10, so a seat that begins at group 0 gets 11 to 15 there, and the next group's sixteen. Behind the head's two fields each
/// chain fragment has three, so the last is in the fifteenth, which comes behind the head.
#[test]
fn a_long_record_is_made(rt: HostRuntime) -> Result<(), Fail> {
    let mut holder = lone_seat(rt.alloc(), 4, 0)?;
    makes_it(&rt, rt.alloc(), &mut holder)?;
    reaches_its_last_field(&rt, &mut holder)?;
    Ok(())
}

fn is_refused(rt: &impl Abort, alloc: Global, holder: &mut Holder) -> Result<(), Fail> {
    tries(rt, holder, Err(Full { need: 16, found: 5 }), &[])?;
    keeps(rt, holder, &[]);
    let told = "0 new 1 47 = full need 16 found 5";
    takes_in_vain(rt, alloc, holder, told)
}

/// Five fragments of the one group are free, and sixteen are needed.
#[test]
fn a_long_record_is_refused(rt: HostRuntime) -> Result<(), Fail> {
    let mut holder = lone_seat(rt.alloc(), 1, 0)?;
    is_refused(&rt, rt.alloc(), &mut holder)
}
