ghost use Rattle.std.specs.Prelude.{◌≡◌, ◌≤◌, ◌++◌, List, [], ◌∷◌};
ghost use Rattle.heap_model.specs.declared.command.Command.TheVariants.{Array};
ghost use Rattle.heap_model.specs.declared.entry.Entry.TheVariants.{Said};
ghost use Rattle.heap_model.specs.declared.reply.Reply.TheVariants.{Made as TellsMade};
ghost use Rattle.core_machine.specs.calls.Making.{name_after};
ghost use Rattle.heap_table.specs.Made.{Made, MakesSteps, BySteps};
ghost use Rattle.object_chain.specs.Bearing.{IsBorn, HoldsNewborn};
ghost use Rattle.array_spine.specs.Bearing.{BeginsPlacing, IsStored};

use crate::budget::Budget;
use core_machine::Entries;
use heap_model::Id;
use heap_table::{Holder, step_laws};

/// Gives the spine of the array that the call in flight makes its place, stores the words of the spine and then those of the array, bears its fragments, and answers its id.
pub fn bear_array<L: Entries>(
    holder: &mut Holder<L>,
    fragments: &[u16],
    cells: u16,
    budget: Budget,
    d: u8,
) -> Id
    requires begins { BeginsPlacing holder.old fragments.now cells budget.words d }
    requires room { 3 ≤ holder.old.spare }
    ensures steps { (made : List Made) × MakesSteps holder.old holder.new made }
    ensures stored { BySteps holder.old holder.new (λ made. IsStored made (Array d cells) (name_after holder.old.number holder.old.seat.made) fragments.now budget.words) }
    ensures born { BySteps holder.old holder.new (λ made. IsBorn made fragments.now) }
    ensures newborn { HoldsNewborn holder.old holder.new d fragments.now result }
    ensures told { holder.new.seat.mine ≡ holder.old.seat.mine ++ Said holder.old.number (Array d cells) (TellsMade result) ∷ [] }
{
    let id = Id::Made {
        seat: holder.number(),
        count: holder.made(),
    };
    step_laws();
    // What is true of every seat's data is known from here on.
    let _ = holder.party();
    while let Some(step) = holder.due() {
        holder.step(&step);
    }
    id
}
