ghost use Rattle.std.specs.Prelude.{◌≡◌, ◌+◌, ◌*◌, ◌<◌, ◌≤◌, Some, IfOk, IfSome, IfNone, OnErr};
ghost use Rattle.heap_model.specs.declared.calls.collect.CollectReply.TheVariants.{Cycle};
ghost use Rattle.core_machine.specs.seat.Looks.{MayNote};
ghost use Rattle.heap_runs.specs.CollectCall.{IsPresent, LooksAround, MayAnswer, LacksReply, AnswersCollect};

use crate::role::{Held, HeldName};
use heap_model::{Behind, CollectReply, Inner, Memory, SeatCalls, Turn};
use heap_record::next_whole_cycle;
use mutator_seat::Seat;
use std::sync::{Mutex, Wait};
use std::thread::yield_now;

/// Where a turn waits for the seat itself, answers. Where it waits for another one, asks whether that one is behind, and tells what it found where it is.
fn ask(seat: &mut Seat, turn: Turn) -> Result<Option<Behind>, Memory>
    requires present { IsPresent seat.old }
    ensures around { LooksAround seat.old seat.new }
    ensures found { IfOk result (λ found. IfSome found (λ behind. seat.new.seat.looks.behind ≡ Some behind)) }
{
    let Turn::Waits { seat: other, .. } = turn else {
        return Ok(None);
    };
    seat.room(4)?;
    if other == seat.number() {
        seat.answer();
        return Ok(None);
    }
    if !seat.may_make(&Inner::Behind { seat: other }) {
        return Ok(None);
    }
    let Some((answered, phase)) = seat.behind(other) else {
        return Ok(None);
    };
    Ok(Some(Behind {
        seat: other,
        answered,
        phase,
    }))
}

/// Finds out what a turn came to: asks for whom it waits, and looks how far the phase has come. Tells whom it found behind.
fn find_out(seat: &mut Seat, turn: Turn) -> Result<Option<Behind>, Memory>
    requires present { IsPresent seat.old }
    ensures around { LooksAround seat.old seat.new }
    ensures found { IfOk result (λ found. IfSome found (λ behind. seat.new.seat.looks.behind ≡ Some behind)) }
{
    let found = ask(seat, turn)?;
    seat.room(4)?;
    seat.look();
    Ok(found)
}

/// The reply to the collect, once there is one: first that the target has ended, and only else, once others were found behind so often, that it waits for this one.
fn reply_to(seat: &Seat, target: u64, enough: u64, found: Option<Behind>) -> Option<CollectReply>
    requires { IfSome found (λ behind. seat.now.seat.looks.behind ≡ Some behind) }
    ensures answers { IfSome result (MayAnswer target enough seat.now.seat.looks) }
    ensures none { IfNone result (LacksReply target enough seat.now found) }
{
    let ended = CollectReply::Cycle(target);
    if seat.may_make(&Inner::Note(ended)) {
        return Some(ended);
    }
    if seat.waits() < enough {
        return None;
    }
    let found = found?;
    Some(CollectReply::from(found))
}

/// Takes the lock for one turn after another, until what the seat finds out answers its collect.
fn find_reply<N: HeldName, R: Wait>(
    rt: &R,
    seat: &mut Seat,
    held: &Mutex<Held<N>>,
    target: u64,
    enough: u64,
) -> Result<CollectReply, Memory>
    requires present { IsPresent seat.old }
    ensures around { LooksAround seat.old seat.new }
    ensures answer { IfOk result (MayAnswer target enough seat.new.seat.looks) }
{
    for _ in rt.forever() {
        let turn = held.lock(rt).turn()?;
        let found = find_out(seat, turn)?;
        if let Some(reply) = reply_to(seat, target, enough, found) {
            return Ok(reply);
        }
        if found.is_some() {
            yield_now();
        }
    }
    unreachable!()
}

/// A collect of the seat, which makes turns itself, each under the lock, and holds no lock while it looks what they came to. It answers the first cycle that begins at the phase that it looks
/// at first, or behind it, once it sees that this has ended; and that it waits once it has found others behind `patience` times.
pub fn collect_call<N: HeldName, R: Wait>(
    rt: &R,
    seat: &mut Seat,
    held: &Mutex<Held<N>>,
    patience: u32,
) -> Result<CollectReply, Memory>
    requires table { seat.old.table ≡ N.table }
    requires heap { seat.old.heap ≡ N.heap }
    requires present { IsPresent seat.old }
    requires patience { 1 ≤ patience }
    ensures answers { IfOk result (AnswersCollect patience seat.old seat.new) }
    ensures memory { OnErr result (LooksAround seat.old seat.new) }
{
    let enough = seat.waits().saturating_add(u64::from(patience));
    seat.room(4)?;
    let target = next_whole_cycle(seat.look());
    let reply = find_reply(rt, seat, held, target, enough)?;
    seat.room(4)?;
    seat.note(reply);
    Ok(reply)
}
