//! The same calls and turns on a heap whose logs are kept and on one without logs: each is answered alike, and closing leaves the same words.

ghost use Rattle.std.specs.Prelude.{IfOk};
ghost use Rattle.heap_model.specs.Heap.{IsHeap};
ghost use Rattle.library_tests.specs.SameSeat.{IsOfTable, IsSameSeat, IsSameTable};

use super::calling::called;
use crate::tests::comparing::{holds, same};
use crate::tests::opening::two_seats;
use core_machine::{CountedLog, CountsEntries, LastLog, Log, ShowsLast};
use heap_model::{Command, Heap, Memory, Reply, Turn};
use heap_table::{Closed, ClosedWords, CollectorHolder};
use mutator_seat::Seat;
use script_text::{Line, make_script};
use std::alloc::Global;
use std::process::Abort;
use std::test::Fail;

/// How many lines each script has, and how many turns are made after each.
const LINES: u32 = 1_000;

const TURNS: u8 = 3;

/// What seats and a collector have answered so far.
#[derive(Drop)]
struct Answers {
    replies: Vec<Option<Reply>>,
    turns: Vec<Turn>,
}

/// Makes the turns, and keeps what each answers.
fn turned<L: ShowsLast, C: CountsEntries>(
    collector: &mut CollectorHolder<L, C>,
    turns: &mut Vec<Turn>,
) -> Result<(), Memory>
    ensures { IsSameTable collector.old collector.new }
{
    for _ in 0..TURNS {
        collector.room(2)?;
        let (_, turn) = collector.turn();
        turns.push(turn)?;
    }
    Ok(())
}

/// What the one seat or the other is answered to the command.
fn reply_of<L: ShowsLast>(
    first: &mut Seat<L>,
    second: &mut Seat<L>,
    is_first: bool,
    command: &Command,
) -> Result<Option<Reply>, Memory>
    ensures first { IsSameSeat first.old first.new }
    ensures second { IsSameSeat second.old second.new }
{
    let room = 2 * command.need() as usize + 4;
    if is_first {
        called(first, command, room)
    } else {
        called(second, command, room)
    }
}

/// The one seat or the other is called so, and then the turns are made.
fn go_on<L: ShowsLast, C: CountsEntries>(
    first: &mut Seat<L>,
    second: &mut Seat<L>,
    collector: &mut CollectorHolder<L, C>,
    is_first: bool,
    command: &Command,
    answers: &mut Answers,
) -> Result<(), Memory>
    ensures first { IsSameSeat first.old first.new }
    ensures second { IsSameSeat second.old second.new }
    ensures collector { IsSameTable collector.old collector.new }
{
    let reply = reply_of(first, second, is_first, command)?;
    answers.replies.push(reply)?;
    turned(collector, &mut answers.turns)
}

/// The script's calls are made.
fn play<L: ShowsLast, C: CountsEntries>(
    first: &mut Seat<L>,
    second: &mut Seat<L>,
    collector: &mut CollectorHolder<L, C>,
    lines: &[Line],
    answers: &mut Answers,
) -> Result<(), Memory>
    ensures first { IsSameSeat first.old first.new }
    ensures second { IsSameSeat second.old second.new }
    ensures collector { IsSameTable collector.old collector.new }
{
    for line in lines {
        if let Line::Seat { seat, command } = line {
            go_on(first, second, collector, *seat == 0, command, answers)?;
        }
    }
    Ok(())
}

/// The script's calls are made, and both seats leave.
fn play_out<L: ShowsLast, C: CountsEntries>(
    first: &mut Seat<L>,
    second: &mut Seat<L>,
    collector: &mut CollectorHolder<L, C>,
    lines: &[Line],
    answers: &mut Answers,
) -> Result<(), Memory>
    ensures first { IsSameSeat first.old first.new }
    ensures second { IsSameSeat second.old second.new }
    ensures collector { IsSameTable collector.old collector.new }
{
    play(first, second, collector, lines, answers)?;
    go_on(first, second, collector, true, &Command::Leave, answers)?;
    go_on(first, second, collector, false, &Command::Leave, answers)
}

/// Folds the seat in, where it has left.
fn fold<L: ShowsLast, C: CountsEntries>(collector: &mut CollectorHolder<L, C>, seat: Seat<L>)
    requires { IsOfTable collector.old seat }
    ensures { IsSameTable collector.old collector.new }
{
    let holder = seat.into_holder();
    if holder.party().left() {
        collector.fold_in(holder);
    }
}

/// The collector of a heap of two seats that opens, once they have played the script's calls and it has taken in both.
fn played<L: ShowsLast, C: CountsEntries>(
    alloc: Global,
    heap: Heap,
    lines: &[Line],
    answers: &mut Answers,
) -> Result<CollectorHolder<L, C>, Fail>
    requires { IsHeap heap }
{
    let (mut first, mut second, mut collector) = two_seats::<L, C>(alloc, heap)?;
    let end = play_out(&mut first, &mut second, &mut collector, lines, answers);
    fold(&mut collector, first);
    fold(&mut collector, second);
    end?;
    Ok(collector)
}

/// Whether a call found too little space.
fn were_refused(replies: &[Option<Reply>]) -> bool {
    replies.iter().any(|reply| matches!(reply, Some(Reply::Full { .. } | Reply::SpineFull { .. })))
}

/// Whether a cycle ended.
fn have_ended(turns: &[Turn]) -> bool {
    turns.iter().any(|turn| matches!(turn, Turn::Ended { .. }))
}

/// Both kinds have answered alike, and among the replies and the turns stands what these scripts are to bring.
fn answer_alike(rt: &impl Abort, kept: &Answers, told: &Answers, start: u32) {
    let (replies, turns) = (told.replies.as_slice(), told.turns.as_slice());
    same(rt, &replies, &kept.replies.as_slice(), &start);
    same(rt, &turns, &kept.turns.as_slice(), &start);
    holds(rt, were_refused(replies), &start);
    holds(rt, have_ended(turns), &start);
}

/// What closing leaves where the logs are kept.
fn closed(rt: &impl Abort, alloc: Global, collector: CollectorHolder) -> Result<Closed, Memory> {
    holds(rt, collector.all_folded(), &"a seat that was to leave");
    collector.close(alloc).map_err(|_| Memory)
}

/// What closing leaves where there are no logs.
fn closed_told(
    rt: &impl Abort,
    alloc: Global,
    collector: CollectorHolder<LastLog, CountedLog>,
) -> Result<ClosedWords, Memory> {
    holds(rt, collector.all_folded(), &"a seat that was to leave");
    collector.close_told(alloc).map_err(|_| Memory)
}

/// Nothing was answered yet.
fn no_answers(alloc: Global) -> Answers {
    Answers {
        replies: Vec::new(alloc),
        turns: Vec::new(alloc),
    }
}

/// Plays the lines on a heap of either kind, and compares the replies, the turns, and what closing leaves: the same words, and as many that were folded in.
fn compare(
    rt: &impl Abort,
    alloc: Global,
    heap: Heap,
    lines: &[Line],
    start: u32,
) -> Result<(), Fail>
    requires { IsHeap heap }
{
    let (mut kept, mut told) = (no_answers(alloc), no_answers(alloc));
    let collector = played::<Log, Log>(alloc, heap, lines, &mut kept)?;
    let closed = closed(rt, alloc, collector)?;
    let collector = played::<LastLog, CountedLog>(alloc, heap, lines, &mut told)?;
    let bare = closed_told(rt, alloc, collector)?;
    answer_alike(rt, &kept, &told, start);
    same(rt, &bare.words(), &closed.words(), &start);
    same(rt, &bare.folded(), &closed.folded(), &start);
    Ok(())
}

/// The heap of both kinds.
fn small_heap() -> Result<Heap, Fail>
    ensures { IfOk result IsHeap }
{
    let heap = Heap::make(6, 40, 2, 7).ok_or("the limits")?;
    Ok(heap)
}

#[test]
fn answers_alike_without_logs(rt: HostRuntime) -> Result<(), Fail> {
    let heap = small_heap()?;
    for start in [1u32, 2, 3, 4, 5] {
        let script = make_script(rt.alloc(), start, 2, LINES)?;
        compare(&rt, rt.alloc(), heap, script.lines.as_slice(), start)?;
    }
    Ok(())
}
