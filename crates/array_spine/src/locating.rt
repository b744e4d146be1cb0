ghost use Rattle.std.specs.Prelude.{◌≡◌, ◌%◌, ◌≤◌, List};
ghost use Rattle.heap_table.specs.Made.{Made, MakesSteps};
ghost use Rattle.object_chain.specs.FieldPlace.{IsPlaceOfField};
ghost use Rattle.object_chain.specs.Walking.{IsAtField};
ghost use Rattle.array_spine.specs.Locating.{BeginsLocating, IsNamedBySpine};

use core_machine::{Entries, SpineStep, Step};
use heap_table::{Holder, step_laws};
use heap_words::Spot;
use object_chain::Place;

/// Goes through the spine of an array to the cell of the call in flight, and answers where it stands. The call has loaded the array's meta.
pub fn cell_at<L: Entries>(holder: &mut Holder<L>, sentinel: u16, index: u16) -> Place
    requires begins { BeginsLocating holder.old sentinel index }
    requires room { 3 ≤ holder.old.spare }
    ensures steps { (made : List Made) × MakesSteps holder.old holder.new made × IsNamedBySpine made sentinel index result.fragment }
    ensures part { result.part ≡ index % 4 }
    ensures reached { (holder.new.seat.reached ≡ result.fragment) × (holder.new.seat.part ≡ result.part) }
    ensures past { IsAtField holder.new.seat.point }
    ensures field { IsPlaceOfField holder.new sentinel index result.fragment result.part }
    ensures room { 3 ≤ holder.new.spare }
{
    step_laws();
    let spine = Spot::told(holder.step(&Step::Spine(SpineStep::AddressLoad { sentinel })));
    holder.step(&Step::Spine(SpineStep::WordLoad {
        half: spine.half,
        offset: spine.offset + u32::from(index / 4),
    }));
    let party = holder.party();
    Place {
        fragment: party.reached(),
        part: party.part(),
    }
}
