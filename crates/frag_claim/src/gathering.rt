ghost use Rattle.std.specs.Prelude.{◌≡◌, ◌+◌, ◌*◌, ◌<◌, ◌≤◌, [], List, length, OnOk, OnErr, IfErr};
ghost use Rattle.core_machine.specs.Moves.{due_step};
ghost use Rattle.core_machine.specs.declared.point.Making.TheVariants.{Refusing};
ghost use Rattle.core_machine.specs.declared.point.Point.TheVariants.{Making as Makes};
ghost use Rattle.heap_table.specs.Made.{Made, MakesSteps, BySteps, IsSound};
ghost use Rattle.frag_claim.specs.Begins.{BeginsGathering};
ghost use Rattle.frag_claim.specs.Due.{due_of_claims as due_at_claims, due_of_returns as due_at_returns, has_its_fragments as has_fragments_at, IsGivingBack};
ghost use Rattle.frag_claim.specs.Gathered.{EndsClaiming, HasGathered, HasItsFragments, IsExhausted};

use crate::held::{Hand, Reserve, refill};
use core_machine::{Entries, Making, Point, SeatParty, Step};
use heap_model::Full;
use heap_table::{Holder, step_laws};

/// The claim that is due, while too little is gathered and some group wasn't claimed.
fn due_of_claims<L: Entries>(holder: &Holder<L>) -> Option<Step>
    ensures due { result ≡ due_at_claims holder.now.seat.point (due_step holder.now.heap holder.now.number holder.now.seat) }
    ensures sound { IsSound holder.now }
{
    match holder.party().point() {
        Point::Making(Making::Gathering) => holder.due(),
        _ => None,
    }
}

/// The step that is due which gives back what was claimed of a group, while some is left.
fn due_of_returns<L: Entries>(holder: &Holder<L>) -> Option<Step>
    ensures due { result ≡ due_at_returns holder.now.seat.point (due_step holder.now.heap holder.now.number holder.now.seat) }
    ensures sound { IsSound holder.now }
{
    match holder.party().point() {
        Point::Making(Making::GivingBack) => holder.due(),
        _ => None,
    }
}

/// Claims one group after another, until enough is gathered or every group was claimed.
fn claim_groups<L: Entries>(holder: &mut Holder<L>, reserve: &Reserve, need: u16)
    requires begins { BeginsGathering holder.old reserve.now.fragments.items reserve.now.cursor need }
    requires room { 2 * need + 4 ≤ holder.old.spare }
    ensures steps { (made : List Made) × MakesSteps holder.old holder.new made }
    ensures ends { EndsClaiming holder.new }
    ensures begun { IsSound holder.old }
    ensures sound { IsSound holder.new }
{
    step_laws();
    // What is true of every seat's data is known from here on.
    let _ = holder.party();
    while let Some(step) = due_of_claims(holder) {
        holder.step(&step);
    }
}

/// Gives back all that was claimed, group by group.
fn return_groups<L: Entries>(holder: &mut Holder<L>)
    requires returning { IsGivingBack holder.old.seat.point }
    requires room { length holder.old.seat.hand + 3 ≤ holder.old.spare }
    ensures steps { (made : List Made) × MakesSteps holder.old holder.new made }
    ensures point { holder.new.seat.point ≡ Makes Refusing }
    ensures all { holder.new.seat.given ≡ length holder.old.seat.hand + holder.old.seat.given }
    ensures sound { IsSound holder.new }
    ensures room { 3 ≤ holder.new.spare }
{
    step_laws();
    while let Some(step) = due_of_returns(holder) {
        holder.step(&step);
    }
}

/// Whether a new object has its fragments, and none of its words is stored.
fn has_its_fragments(point: Point) -> bool
    ensures { result ≡ has_fragments_at point }
{
    matches!(point, Point::Making(Making::Placing | Making::Storing))
}

/// Takes over what the seat has gathered, and what it keeps.
fn take_over<L: Entries>(party: &SeatParty<L>, reserve: &mut Reserve, hand: &mut Hand)
    requires reserve { length party.now.seat.reserve ≤ 15 }
    requires body { length party.now.seat.body ≤ 1025 }
    ensures reserve { reserve.new.fragments.items ≡ party.now.seat.reserve }
    ensures cursor { reserve.new.cursor ≡ party.now.seat.cursor }
    ensures hand { hand.new.fragments.items ≡ party.now.seat.body }
{
    refill(&mut reserve.fragments, party.reserve());
    reserve.cursor = party.cursor();
    refill(&mut hand.fragments, party.body());
}

/// Gathers so many fragments for the object of the call in flight: the hand has these then, and the reserve those that are left.
/// Where every group was claimed and they are too few it gives back what it has claimed.
pub fn gather<L: Entries>(
    holder: &mut Holder<L>,
    reserve: &mut Reserve,
    hand: &mut Hand,
    need: u16,
) -> Result<(), Full>
    requires begins { BeginsGathering holder.old reserve.old.fragments.items reserve.old.cursor need }
    requires empty { hand.old.fragments.items ≡ [] }
    requires room { 2 * need + 4 ≤ holder.old.spare }
    ensures steps { (made : List Made) × MakesSteps holder.old holder.new made }
    ensures command { holder.new.seat.command ≡ holder.old.seat.command }
    ensures hand { OnOk result (length hand.new.fragments.items ≡ need) }
    ensures object { OnOk result (HasItsFragments holder.old holder.new hand.new.fragments.items) }
    ensures gathered { OnOk result (BySteps holder.old holder.new (λ made. HasGathered made holder.old.heap.groups reserve.old.cursor need reserve.old.fragments.items reserve.new.fragments.items hand.new.fragments.items)) }
    ensures kept { (reserve.new.fragments.items ≡ holder.new.seat.reserve) × (reserve.new.cursor ≡ holder.new.seat.cursor) }
    ensures full { IfErr result (λ full. (full.need ≡ need) × (full.found < need)) }
    ensures found { IfErr result (λ full. full.found ≡ length reserve.old.fragments.items + holder.new.seat.given) }
    ensures exhausted { IfErr result (λ full. BySteps holder.old holder.new (λ made. IsExhausted made holder.old.heap.groups reserve.old.fragments.items full.found)) }
    ensures given { OnErr result ((hand.new.fragments.items ≡ []) × (reserve.new.fragments.items ≡ reserve.old.fragments.items) × (reserve.new.cursor ≡ reserve.old.cursor)) }
    ensures refusing { OnErr result (holder.new.seat.point ≡ Makes Refusing) }
    ensures room { 3 ≤ holder.new.spare }
{
    step_laws();
    claim_groups(holder, reserve, need);
    if has_its_fragments(holder.party().point()) {
        take_over(holder.party(), reserve, hand);
        return Ok(());
    }
    let found = reserve.fragments.len() + holder.party().hand().len();
    return_groups(holder);
    Err(Full {
        need: u32::from(need),
        found: found as u32,
    })
}
