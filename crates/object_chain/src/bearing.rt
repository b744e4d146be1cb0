ghost use Rattle.std.specs.Prelude.{◌≡◌, ◌*◌, ◌≤◌, ◌++◌, List, [], ◌∷◌, length};
ghost use Rattle.heap_model.specs.declared.command.Command.TheVariants.{New};
ghost use Rattle.heap_model.specs.declared.entry.Entry.TheVariants.{Said};
ghost use Rattle.heap_model.specs.declared.reply.Reply.TheVariants.{Made as TellsMade};
ghost use Rattle.core_machine.specs.Moves.{due_step};
ghost use Rattle.core_machine.specs.calls.Making.{name_after, HasStored};
ghost use Rattle.core_machine.specs.seat.Seat.{no_spot};
ghost use Rattle.heap_table.specs.Made.{Made, FoundIn, MakesSteps, BySteps, IsSound};
ghost use Rattle.object_chain.specs.Bearing.{BeginsBearing, IsBorn, HoldsNewborn};
ghost use Rattle.object_chain.specs.Due.{due_of_bearing as due_at_bearing};

use core_machine::{Entries, Making, Point, Step};
use heap_model::Id;
use heap_table::{Holder, step_laws};

/// The store or the birth that is due, until the object is born.
fn due_of_bearing<L: Entries>(holder: &Holder<L>) -> Option<Step>
    ensures due { result ≡ due_at_bearing holder.now.seat.point (due_step holder.now.heap holder.now.number holder.now.seat) }
    ensures sound { IsSound holder.now }
{
    match holder.party().point() {
        Point::Making(Making::Storing | Making::Bearing) => holder.due(),
        _ => None,
    }
}

/// Stores the words of the record that the call in flight makes, bears its fragments, and answers its id.
pub fn bear_record<L: Entries>(holder: &mut Holder<L>, fragments: &[u16], fields: u16, d: u8) -> Id
    requires begins { BeginsBearing holder.old fragments.now fields d }
    requires room { 3 ≤ holder.old.spare }
    ensures steps { (made : List Made) × MakesSteps holder.old holder.new made }
    ensures stored { BySteps holder.old holder.new (λ made. HasStored (FoundIn made) (New d fields) (name_after holder.old.number holder.old.seat.made) no_spot fragments.now (4 * length fragments.now)) }
    ensures born { BySteps holder.old holder.new (λ made. IsBorn made fragments.now) }
    ensures newborn { HoldsNewborn holder.old holder.new d fragments.now result }
    ensures told { holder.new.seat.mine ≡ holder.old.seat.mine ++ Said holder.old.number (New d fields) (TellsMade result) ∷ [] }
{
    let id = Id::Made {
        seat: holder.number(),
        count: holder.made(),
    };
    step_laws();
    // What is true of every seat's data is known from here on.
    let _ = holder.party();
    while let Some(step) = due_of_bearing(holder) {
        holder.step(&step);
    }
    id
}
