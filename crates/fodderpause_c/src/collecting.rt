ghost use Rattle.std.specs.Prelude.{◌≡◌};
ghost use Rattle.heap_model.specs.declared.calls.collect.CollectReply.TheVariants.{Cycle, Waits};
ghost use Rattle.fodderpause_c.specs.Codes.{answer_code};
ghost use Rattle.fodderpause_c.specs.Inner.{Looks, AnswersPhase, LooksBehind, Notes, TellsNames, TellsSets};
ghost use Rattle.fodderpause_c.specs.Parties.{ShowsSeat};
ghost use Rattle.fodderpause_c.specs.Phases.{phase_shown, behind_shown};
ghost use Rattle.fodderpause_c.specs.Replies.{left_shown, sets_shown};

use crate::codes::answer_code;
use crate::handle::Handle;
use crate::inner_work::{
    AnswerWork, BehindWork, LookWork, NamesWork, NoteWork, SetsWork, WaitsWork,
};
use crate::phases::{Behind, Phase};
use crate::replies::{Number, SetsLeft};
use crate::seat_work::on_seat;
use heap_model::CollectReply;
use std::alloc::Global;

/// Looks at the phase.
#[unsafe(no_mangle)]
pub extern "C" fn fodderpause_look(alloc: Global, seat: &mut Handle) -> Phase
    ensures { ShowsSeat Looks phase_shown seat.old.pointer.party seat.new.pointer.party result }
{
    Phase::of(on_seat(alloc, seat, &LookWork))
}

/// Answers the phase, as a poll does, within a collect.
#[unsafe(no_mangle)]
pub extern "C" fn fodderpause_answer(alloc: Global, seat: &mut Handle) -> Phase
    ensures { ShowsSeat AnswersPhase phase_shown seat.old.pointer.party seat.new.pointer.party result }
{
    Phase::of(on_seat(alloc, seat, &AnswerWork))
}

/// Looks whether another seat has yet to answer the phase.
#[unsafe(no_mangle)]
pub extern "C" fn fodderpause_behind(alloc: Global, seat: &mut Handle, other: u32) -> Behind
    ensures { ShowsSeat (LooksBehind other) behind_shown seat.old.pointer.party seat.new.pointer.party result }
{
    Behind::of(on_seat(alloc, seat, &BehindWork { seat: other }))
}

/// Notes that the seat's collect came to the end of this cycle.
#[unsafe(no_mangle)]
pub extern "C" fn fodderpause_note_cycle(alloc: Global, seat: &mut Handle, cycle: u64) -> u32
    ensures { ShowsSeat (Notes (Cycle cycle)) answer_code seat.old.pointer.party seat.new.pointer.party result }
{
    let reply = CollectReply::Cycle(cycle);
    answer_code(on_seat(alloc, seat, &NoteWork { reply }))
}

/// Notes that it waits for this other seat.
#[unsafe(no_mangle)]
pub extern "C" fn fodderpause_note_waits(
    alloc: Global,
    seat: &mut Handle,
    other: u32,
    answered: u64,
    phase: u64,
) -> u32
    ensures { ShowsSeat (Notes (Waits other answered phase)) answer_code seat.old.pointer.party seat.new.pointer.party result }
{
    let work = WaitsWork {
        seat: other,
        answered,
        phase,
    };
    answer_code(on_seat(alloc, seat, &work))
}

/// How many more objects the seat can make.
#[unsafe(no_mangle)]
pub extern "C" fn fodderpause_names_left(alloc: Global, seat: &mut Handle) -> Number
    ensures { ShowsSeat TellsNames left_shown seat.old.pointer.party seat.new.pointer.party result }
{
    Number::left(on_seat(alloc, seat, &NamesWork))
}

/// How many more sets it can do.
#[unsafe(no_mangle)]
pub extern "C" fn fodderpause_sets_left(alloc: Global, seat: &mut Handle) -> SetsLeft
    ensures { ShowsSeat TellsSets sets_shown seat.old.pointer.party seat.new.pointer.party result }
{
    SetsLeft::of(on_seat(alloc, seat, &SetsWork))
}
