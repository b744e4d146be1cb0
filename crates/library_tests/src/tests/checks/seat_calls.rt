//! The calls of a seat by their trait, on a seat of a table that is alone there.

ghost use Rattle.std.specs.Prelude.{◌≡◌, ◌+◌, ◌*◌, ◌<◌, ◌≤◌, ◌^◌, false, length};
ghost use Rattle.heap_model.specs.calls.SeatState.{own_graph_seat};

use crate::tests::comparing::{holds, same};
use crate::tests::opening::opening;
use collector_turns::Collector;
use heap_model::{Entry, Memory, SeatCalls, seat_laws};
use mutator_seat::Seat;
use playing::{parted, play};
use reply_text::read_history;
use std::alloc::Global;
use std::process::Abort;
use std::test::Fail;

mod boards;
mod calling;
mod playing;
mod racing;
mod swaps;
mod told;

/// What a seat does that is alone on a heap of one group and six spine words, and how many objects it has made and sets
/// it has done then. The board leaves 5 fragments.
const STORIES: [(&str, u32, u32); 5] = [
    // A record of 15 fields has 6 fragments, and so has an array of 17 cells. All that is free is claimed at once.
    (
        "0 takes 5\n\
         0 gives back 5\n\
         0 new 1 15 = full need 6 found 5\n\
         0 takes 5\n\
         0 gives back 5\n\
         0 array 1 17 = full need 6 found 5\n\
         0 array 1 25 = spine need 7 used 0\n\
         0 takes 5\n\
         0 array 1 4 = 0.0\n\
         0 new 2 8 = 0.1\n\
         0 new 3 1 = full need 1 found 0\n\
         0 array 3 21 = spine need 6 used 1\n\
         0 array 3 20 = full need 6 found 0\n\
         0 len 1 = 4\n\
         0 len 2 = 8\n\
         0 get 4 1 3 = nil at -\n\
         0 get 4 1 4 = no field\n\
         0 get 4 2 7 = nil at -\n\
         0 leave = ok\n\
         space used 16 of 16 spine 1 of 6\n\
         end used 16\n",
        2,
        0,
    ),
    (
        "0 takes 5\n\
         0 new 1 2 = 0.0\n\
         0 new 2 15 = full need 6 found 4\n\
         0 new 2 3 = 0.1\n\
         0 gives back 2\n\
         0 leave = ok\n\
         space used 14 of 16 spine 0 of 6\n\
         end used 14\n",
        2,
        0,
    ),
    (
        "0 poll = 0\n\
         c phase 1\n\
         0 answers 1\n\
         0 poll = 1\n\
         0 poll = 1\n\
         c phase 2\n\
         0 answers 2\n\
         0 poll = 2\n\
         space used 11 of 16 spine 0 of 6\n\
         end used 11\n",
        0,
        0,
    ),
    (
        "0 get 3 0 31 = nil at -\n\
         0 get 3 0 32 = no field\n\
         0 get 3 1 0 = no object\n\
         0 set 0 31 1 = was -\n\
         0 set 0 32 1 = no field\n\
         0 set 1 0 1 = no object\n\
         0 len 0 = 32\n\
         0 len 1 = no object\n\
         0 num 4 7 = ok\n\
         0 len 4 = no object\n\
         0 copy 5 4 = ok\n\
         0 same 4 5 = yes\n\
         0 nil 4 = ok\n\
         0 same 4 5 = no\n\
         space used 11 of 16 spine 0 of 6\n\
         end used 11\n",
        0,
        1,
    ),
    // An array of 5 cells has 3 fragments and 2 spine words. What is set in a cell is read from it.
    (
        "0 takes 5\n\
         0 array 1 5 = 0.0\n\
         0 num 2 7 = ok\n\
         0 set 1 4 2 = was -\n\
         0 get 3 1 4 = number 7 at 0:1\n\
         0 same 2 3 = yes\n\
         0 set 1 4 1 = was 0:1\n\
         0 get 3 1 4 = object 0.0 at 0:2\n\
         0 len 3 = 5\n\
         0 same 1 3 = yes\n\
         0 set 0 0 3 = was -\n\
         0 get 4 0 0 = object 0.0 at 0:3\n\
         0 gives back 2\n\
         0 leave = ok\n\
         space used 14 of 16 spine 2 of 6\n\
         end used 14\n",
        1,
        3,
    ),
];

/// The seat and the collector have told just these entries, and the seat has made so many objects and done so many sets.
fn have_told(
    rt: &impl Abort,
    alloc: Global,
    seat: &Seat,
    collector: &Collector,
    entries: &[Entry],
    row: (&str, u32, u32),
) -> Result<(), Memory> {
    let (story, made, sets) = row;
    let (wanted, phases) = parted(alloc, entries)?;
    same(rt, &seat.log(), &wanted.as_slice(), &story);
    same(rt, &collector.log(), &phases.as_slice(), &story);
    same(rt, &seat.names_left(), &(u32::MAX - made), &story);
    same(
        rt,
        &seat.sets_left(),
        &0x7fff_ffff_ffff_ffffu64.saturating_sub(u64::from(sets)),
        &story,
    );
    Ok(())
}

/// A seat that opens, and its collector, make what the entries tell.
fn make(
    rt: &impl Abort,
    alloc: Global,
    entries: &[Entry],
    row: (&str, u32, u32),
) -> Result<(), Fail> {
    let (mut seat, mut collector) = opening(alloc)?;
    play(rt, &mut seat, &mut collector, entries, row.0)?;
    have_told(rt, alloc, &seat, &collector, entries, row)?;
    Ok(())
}

/// The story is a legal history, which a seat makes.
fn does(rt: &(impl Abort + AllocGlobal), row: (&str, u32, u32)) -> Result<(), Fail> {
    let alloc = rt.alloc();
    let text = format!(in alloc; "history 1 play\nheap 1 6 1\n{}", row.0)?;
    holds(rt, super::checked(alloc, &text)?.is_ok(), &row.0);
    let history = read_history(alloc, text.as_bytes())?;
    make(rt, alloc, history.entries.as_slice(), row)
}

#[test]
fn does_as_told(rt: HostRuntime) -> Result<(), Fail> {
    for row in STORIES {
        does(&rt, row)?;
    }
    Ok(())
}

/// Polls so often, in room for two entries each time and two more.
fn poll_often<S: SeatCalls>(seat: &mut S, times: u8)
    requires present { (own_graph_seat (S.state seat.old)).left ≡ false }
    requires room { 2 * times + 2 ≤ (S.state seat.old).spare }
    ensures { (own_graph_seat (S.state seat.new)).left ≡ false }
{
    seat_laws();
    for _i in 0..times {
        let _ = seat.poll();
    }
}

/// Makes an object of one fragment and polls five times, in room for 16 entries.
fn make_and_poll<S: SeatCalls>(seat: &mut S)
    requires present { (own_graph_seat (S.state seat.old)).left ≡ false }
    requires name { length (own_graph_seat (S.state seat.old)).objects + 1 < 2 ^ 32 }
    requires room { 16 ≤ (S.state seat.old).spare }
    ensures { (own_graph_seat (S.state seat.new)).left ≡ false }
{
    seat_laws();
    let _ = seat.new_record(1, 2);
    poll_often(seat, 5);
}

/// The seat makes room, an object and its polls.
fn polls(rt: &impl Abort, seat: &mut Seat) -> Result<(), Memory> {
    seat.room(16)?;
    holds(rt, !seat.left() && seat.names_left() > 0, &"the beginning");
    make_and_poll(seat);
    seat.room(16)?;
    poll_often(seat, 7);
    same(rt, &seat.log().len(), &14, &"the end");
    Ok(())
}

#[test]
fn finds_its_room(rt: HostRuntime) -> Result<(), Fail> {
    let (mut seat, _) = opening(rt.alloc())?;
    polls(&rt, &mut seat)?;
    Ok(())
}
