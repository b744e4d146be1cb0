ghost use Rattle.std.specs.Prelude.{◌≡◌, ◌≤◌, List, [], ◌∷◌, ◌++◌, slice_set};
ghost use Rattle.heap_model.specs.declared.entry.Entry.TheVariants.{Said};
ghost use Rattle.heap_model.specs.declared.id.Value.TheVariants.{Object as TellsObject};
ghost use Rattle.heap_model.specs.declared.reply.Reply.TheVariants.{Got};
ghost use Rattle.heap_words.specs.Loaded.{stamp_of};
ghost use Rattle.core_machine.specs.declared.point.Point.TheVariants.{Idle};
ghost use Rattle.core_machine.specs.declared.seat.register.Register.TheVariants.{Object};
ghost use Rattle.core_machine.specs.seat.Commands.{target_of};
ghost use Rattle.core_machine.specs.table.Decode.{id_of_owner};
ghost use Rattle.heap_table.specs.Made.{Made, MakesSteps};
ghost use Rattle.object_chain.specs.Naming.{BeginsNaming, IsNamed, IsHeldsName};

use core_machine::{AccessStep, Entries, Step};
use heap_table::{Holder, step_laws};
use heap_words::Name;

/// Loads the name of the object with this first fragment, to which the field refers that the get in flight has found, and ends the get.
pub fn name_of<L: Entries>(holder: &mut Holder<L>, head: u16) -> Name
    requires begins { BeginsNaming holder.old head }
    requires room { 2 ≤ holder.old.spare }
    ensures steps { (made : List Made) × MakesSteps holder.old holder.new made × IsNamed made head result }
    ensures held { IsHeldsName holder.old head result }
    ensures register { holder.new.seat.registers ≡ slice_set holder.old.seat.registers (target_of holder.old.seat.command) (Object head (id_of_owner result.owner result.count)) }
    ensures seen { holder.new.seat.seen ≡ slice_set holder.old.seat.seen (target_of holder.old.seat.command) (stamp_of holder.old.seat.loaded) }
    ensures told { holder.new.seat.mine ≡ holder.old.seat.mine ++ Said holder.old.number holder.old.seat.command (Got (TellsObject (id_of_owner result.owner result.count)) (stamp_of holder.old.seat.loaded)) ∷ [] }
    ensures over { holder.new.seat.point ≡ Idle }
{
    step_laws();
    let word = holder.step(&Step::Access(AccessStep::NameLoad { head }));
    Name::told(word)
}
