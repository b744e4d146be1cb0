ghost use Rattle.std.specs.Prelude.{◌≡◌, ◌+◌, ◌≤◌, List};
ghost use Rattle.core_machine.specs.calls.Owes.{owes};
ghost use Rattle.core_machine.specs.declared.point.Point.TheVariants.{Idle};
ghost use Rattle.core_machine.specs.machine.Calls.{last_reply_of};
ghost use Rattle.core_machine.specs.machine.Machine.{MayBegin};
ghost use Rattle.heap_table.specs.Made.{Made, MakesSteps, IsSound};
ghost use Rattle.mutator_seat.specs.Calls.{begun};

use core_machine::{Entries, SeatParty, ShowsLast};
use heap_model::{Command, Entry, Reply};
use heap_table::{Holder, step_laws};

/// Makes the due step for as long as there is one.
pub(crate) fn run<L: Entries>(holder: &mut Holder<L>)
    requires sound { IsSound holder.old }
    requires room { owes holder.old.seat + 2 ≤ holder.old.spare }
    ensures steps { (made : List Made) × MakesSteps holder.old holder.new made }
    ensures over { holder.new.seat.point ≡ Idle }
{
    step_laws();
    while let Some(step) = holder.due() {
        holder.step(&step);
    }
}

/// Makes the steps of the whole call, in one go where it is near.
#[inline(always)]
pub(crate) fn run_whole<L: Entries>(holder: &mut Holder<L>, command: &Command)
    requires may { MayBegin holder.old.seat command.now }
    requires sound { IsSound (begun holder.old command.now) }
    requires room { owes (begun holder.old command.now).seat + 2 ≤ holder.old.spare }
    ensures steps { (made : List Made) × MakesSteps (begun holder.old command.now) holder.new made }
    ensures over { holder.new.seat.point ≡ Idle }
{
    step_laws();
    if holder.start(command) {
        return;
    }
    // What is true of the seat's data behind the first steps is known from here on.
    let _ = holder.party();
    run(holder);
}

/// The reply that the seat's last entry tells.
pub(crate) fn last_reply<L: ShowsLast>(party: &SeatParty<L>) -> Option<Reply>
    ensures { result ≡ last_reply_of party.now.seat.mine }
{
    match party.last()? {
        Entry::Said { reply, .. } => Some(reply),
        _ => None,
    }
}
