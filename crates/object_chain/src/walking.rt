ghost use Rattle.std.specs.Prelude.{◌≡◌, ◌≤◌, List};
ghost use Rattle.core_machine.specs.Moves.{due_step};
ghost use Rattle.core_machine.specs.calls.Reaching.{LeadsTo};
ghost use Rattle.core_machine.specs.seat.Access.{row_of, part_of};
ghost use Rattle.heap_table.specs.Made.{Made, MakesSteps, IsSound};
ghost use Rattle.object_chain.specs.Due.{due_of_walk as due_at_walk};
ghost use Rattle.object_chain.specs.FieldPlace.{IsPlaceOfField};
ghost use Rattle.object_chain.specs.Walking.{BeginsWalking, HasFound, IsAtField};

use core_machine::{Access, Entries, Step};
use heap_table::{Holder, step_laws};
use heap_words::Meta;

/// Where a field stands: a fragment, and a word of it.
#[derive(Clone, Copy, Debug, PartialEq, Eq)]
pub struct Place {
    pub fragment: u16,
    pub part: u8,
}

/// The load of a link that is due; none once the field's fragment is reached.
fn due_of_walk<L: Entries>(holder: &Holder<L>) -> Option<Step>
    ensures due { result ≡ due_at_walk holder.now.seat.point (due_step holder.now.heap holder.now.number holder.now.seat) }
    ensures sound { IsSound holder.now }
{
    match holder.party().point() {
        core_machine::Point::Access(Access::Walking) => holder.due(),
        _ => None,
    }
}

/// Goes by links from the first fragment of a record to the field's, and answers where the field stands. The call in flight has loaded the meta there.
pub fn walk<L: Entries>(holder: &mut Holder<L>, head: u16, meta: Meta, field: u16) -> Place
    requires begins { BeginsWalking holder.old head meta field }
    requires room { 3 ≤ holder.old.spare }
    ensures steps { (made : List Made) × MakesSteps holder.old holder.new made × LeadsTo (HasFound made head meta) (row_of field) head result.fragment }
    ensures part { result.part ≡ part_of field }
    ensures reached { (holder.new.seat.reached ≡ result.fragment) × (holder.new.seat.part ≡ result.part) }
    ensures past { IsAtField holder.new.seat.point }
    ensures field { IsPlaceOfField holder.new head field result.fragment result.part }
    ensures room { 3 ≤ holder.new.spare }
{
    step_laws();
    while let Some(step) = due_of_walk(holder) {
        holder.step(&step);
    }
    let party = holder.party();
    Place {
        fragment: party.reached(),
        part: party.part(),
    }
}
