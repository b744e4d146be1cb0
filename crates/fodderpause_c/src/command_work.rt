ghost use Rattle.std.specs.Prelude.{◌≡◌, true, MatchResult};
ghost use Rattle.heap_model.specs.calls.SeatCalls.{IsReady, HasNumber};
ghost use Rattle.mutator_seat.specs.Resting.{seat_state};
ghost use Rattle.fodderpause_c.specs.Calls.{IsGiven, Refuses, LacksNumber, MayCall};

use crate::asked::Asked;
use crate::party::HeapSeat;
use crate::refusal::Refusal;
use crate::seat_work::SeatWork;
use heap_model::{Command, Reply, SeatCalls};

/// The whole call that is asked for.
#[derive(Drop)]
pub struct CommandWork {
    pub asked: Asked,
}

/// Whether a name or a set is left where the command uses one up.
fn numbered(seat: &HeapSeat, command: &Command) -> Result<(), Refusal>
    ensures { MatchResult result (λ _. HasNumber (seat_state seat.now) command.now) (LacksNumber (seat_state seat.now) command.now) }
{
    match *command {
        Command::New { .. } | Command::Array { .. } => {
            if seat.names_left() == 0 {
                return Err(Refusal::NamesSpent);
            }
            Ok(())
        }
        Command::Set { .. } | Command::Cas { .. } => {
            if seat.sets_left() == 0 {
                return Err(Refusal::SetsSpent);
            }
            Ok(())
        }
        Command::Get { .. }
        | Command::Num { .. }
        | Command::Nil { .. }
        | Command::Copy { .. }
        | Command::Same { .. }
        | Command::Len { .. }
        | Command::Poll
        | Command::Collect
        | Command::Leave => Ok(()),
    }
}

/// Whether the seat may be given the command.
fn allowed(seat: &HeapSeat, command: &Command) -> Result<(), Refusal>
    ensures { MatchResult result (λ _. MayCall (seat_state seat.now) command.now) (Refuses (seat_state seat.now) command.now) }
{
    if matches!(command, Command::Collect) || !command.is_in_range() {
        return Err(Refusal::OutOfRange);
    }
    if seat.left() {
        return Err(Refusal::HasLeft);
    }
    numbered(seat, command)?;
    if seat.spare() < 2 * command.need() as usize + 4 {
        return Err(Refusal::EntriesSpent);
    }
    Ok(())
}

impl SeatWork for CommandWork {
    ghost use Rattle.fodderpause_c.specs.Asked.{asked_command};
    ghost use Rattle.fodderpause_c.specs.Calls.{Calls};

    type Answer = Reply;

    ghost comes_to = { λ work. Calls (asked_command work.asked) };

    fn work(&self, seat: &mut HeapSeat) -> Result<Reply, Refusal> {
        let Some(command) = self.asked.command() else {
            return Err(Refusal::OutOfRange);
        };
        allowed(seat, &command)?;
        Ok(seat.call(&command))
    }
}
