ghost use Rattle.std.specs.Prelude.{◌≡◌, ◌<◌, ◌≤◌, [], List, length};
ghost use Rattle.core_machine.specs.Moves.{due_step};
ghost use Rattle.core_machine.specs.declared.point.Leaving.TheVariants.{Parting};
ghost use Rattle.core_machine.specs.declared.point.Point.TheVariants.{Leaving as Leaves};
ghost use Rattle.heap_table.specs.Made.{Made, MakesSteps, BySteps, IsSound};
ghost use Rattle.frag_claim.specs.Begins.{BeginsEmptying};
ghost use Rattle.frag_claim.specs.Due.{due_of_emptying as due_at_emptying};
ghost use Rattle.frag_claim.specs.Emptied.{GivesBackReserve};

use crate::held::Reserve;
use core_machine::{Entries, Leaving, Point, Step};
use heap_table::{Holder, step_laws};

/// The step that gives back the reserve, where it is due.
fn due_of_emptying<L: Entries>(holder: &Holder<L>) -> Option<Step>
    ensures due { result ≡ due_at_emptying holder.now.seat.point (due_step holder.now.heap holder.now.number holder.now.seat) }
    ensures sound { IsSound holder.now }
{
    match holder.party().point() {
        Point::Leaving(Leaving::Emptying) => holder.due(),
        _ => None,
    }
}

/// Gives back all of the reserve, for the leave that is in flight.
pub fn give_back<L: Entries>(holder: &mut Holder<L>, reserve: &mut Reserve)
    requires begins { BeginsEmptying holder.old reserve.old.fragments.items }
    requires room { 4 ≤ holder.old.spare }
    ensures steps { (made : List Made) × MakesSteps holder.old holder.new made }
    ensures given { BySteps holder.old holder.new (λ made. GivesBackReserve made holder.old.seat.cursor reserve.old.fragments.items) }
    ensures empty { (reserve.new.fragments.items ≡ []) × (holder.new.seat.reserve ≡ []) }
    ensures cursor { reserve.new.cursor ≡ reserve.old.cursor }
    ensures point { holder.new.seat.point ≡ Leaves Parting }
    ensures room { 3 ≤ holder.new.spare }
{
    step_laws();
    if let Some(step) = due_of_emptying(holder) {
        holder.step(&step);
    }
    reserve.fragments.clear();
}
