ghost use Rattle.std.specs.Prelude.{◌≡◌, MatchResult};
ghost use Rattle.mutator_seat.specs.InnerCalls.{MayCollect};
ghost use Rattle.mutator_seat.specs.Resting.{seat_state};
ghost use Rattle.fodderpause_c.specs.Inner.{cause_of, IsUnready, RefusesInner, MayMakeInner};

use crate::party::HeapSeat;
use crate::refusal::Refusal;
use crate::seat_work::SeatWork;
use heap_model::{CollectReply, Inner, SeatCalls};

/// A look at the phase.
#[derive(Drop)]
pub struct LookWork;

/// An answer to the phase.
#[derive(Drop)]
pub struct AnswerWork;

/// A look whether this seat is behind.
#[derive(Drop)]
pub struct BehindWork {
    pub seat: u32,
}

/// A note of what a collect came to.
#[derive(Drop)]
pub struct NoteWork {
    pub reply: CollectReply,
}

/// A note that a collect waits for this seat.
#[derive(Drop)]
pub struct WaitsWork {
    pub seat: u32,
    pub answered: u64,
    pub phase: u64,
}

/// How many more objects the seat can make.
#[derive(Drop)]
pub struct NamesWork;

/// How many more sets it can do.
#[derive(Drop)]
pub struct SetsWork;

/// Why the inner call may not be begun, where that is so.
fn cause_of(inner: &Inner) -> Refusal
    ensures { result ≡ cause_of inner.now }
{
    match *inner {
        Inner::Note(_) => Refusal::NotFound,
        Inner::Look | Inner::Answer | Inner::Behind { .. } => Refusal::OutOfRange,
    }
}

/// Whether the seat is there still, and has room for what an inner call tells.
fn ready(seat: &HeapSeat) -> Result<(), Refusal>
    ensures { MatchResult result (λ _. MayCollect (seat_state seat.now)) (IsUnready seat.now) }
{
    if seat.left() {
        return Err(Refusal::HasLeft);
    }
    if seat.spare() < 4 {
        return Err(Refusal::EntriesSpent);
    }
    Ok(())
}

/// Whether the seat may make the inner call now.
fn allowed(seat: &HeapSeat, inner: &Inner) -> Result<(), Refusal>
    ensures { MatchResult result (λ _. MayMakeInner seat.now inner.now) (RefusesInner seat.now inner.now) }
{
    ready(seat)?;
    if !seat.may_make(inner) {
        return Err(cause_of(inner));
    }
    Ok(())
}

impl SeatWork for LookWork {
    ghost use Rattle.fodderpause_c.specs.Inner.{Looks};

    type Answer = u64;

    ghost comes_to = { λ _. Looks };

    fn work(&self, seat: &mut HeapSeat) -> Result<u64, Refusal> {
        allowed(seat, &Inner::Look)?;
        Ok(seat.look())
    }
}

impl SeatWork for AnswerWork {
    ghost use Rattle.fodderpause_c.specs.Inner.{AnswersPhase};

    type Answer = u64;

    ghost comes_to = { λ _. AnswersPhase };

    fn work(&self, seat: &mut HeapSeat) -> Result<u64, Refusal> {
        allowed(seat, &Inner::Answer)?;
        Ok(seat.answer())
    }
}

impl SeatWork for BehindWork {
    ghost use Rattle.fodderpause_c.specs.Inner.{LooksBehind};

    type Answer = Option<(u64, u64)>;

    ghost comes_to = { λ work. LooksBehind work.seat };

    fn work(&self, seat: &mut HeapSeat) -> Result<Option<(u64, u64)>, Refusal> {
        let Ok(other) = u8::try_from(self.seat) else {
            ready(seat)?;
            return Err(Refusal::OutOfRange);
        };
        allowed(seat, &Inner::Behind { seat: other })?;
        Ok(seat.behind(other))
    }
}

impl SeatWork for NoteWork {
    ghost use Rattle.fodderpause_c.specs.Inner.{Notes};

    type Answer = ();

    ghost comes_to = { λ work. Notes work.reply };

    fn work(&self, seat: &mut HeapSeat) -> Result<(), Refusal> {
        allowed(seat, &Inner::Note(self.reply))?;
        seat.note(self.reply);
        Ok(())
    }
}

impl SeatWork for WaitsWork {
    ghost use Rattle.heap_model.specs.declared.calls.collect.CollectReply.TheVariants.{Waits};
    ghost use Rattle.fodderpause_c.specs.Inner.{Notes};

    type Answer = ();

    ghost comes_to = { λ work. Notes (Waits work.seat work.answered work.phase) };

    fn work(&self, seat: &mut HeapSeat) -> Result<(), Refusal> {
        let Ok(other) = u8::try_from(self.seat) else {
            ready(seat)?;
            return Err(Refusal::NotFound);
        };
        let reply = CollectReply::Waits {
            seat: other,
            answered: self.answered,
            phase: self.phase,
        };
        allowed(seat, &Inner::Note(reply))?;
        seat.note(reply);
        Ok(())
    }
}

impl SeatWork for NamesWork {
    ghost use Rattle.fodderpause_c.specs.Inner.{TellsNames};

    type Answer = u32;

    ghost comes_to = { λ _. TellsNames };

    fn work(&self, seat: &mut HeapSeat) -> Result<u32, Refusal> {
        Ok(seat.names_left())
    }
}

impl SeatWork for SetsWork {
    ghost use Rattle.fodderpause_c.specs.Inner.{TellsSets};

    type Answer = u64;

    ghost comes_to = { λ _. TellsSets };

    fn work(&self, seat: &mut HeapSeat) -> Result<u64, Refusal> {
        Ok(seat.sets_left())
    }
}
