ghost use Rattle.std.specs.Prelude.{◌≡◌, ◌+◌, ◌≤◌, ◌++◌, List, [], ◌∷◌, length, OnOk, OnErr, IfOk, IfErr, MatchResult};
ghost use Rattle.heap_model.specs.declared.entry.Entry.TheVariants.{Said};
ghost use Rattle.heap_model.specs.declared.reply.Reply.TheVariants.{Full as TellsFull, SpineFull as TellsSpineFull};
ghost use Rattle.core_machine.specs.calls.Claims.{IsGranted};
ghost use Rattle.core_machine.specs.calls.Kept.{KeepsAll, kept_of, WasMade};
ghost use Rattle.core_machine.specs.declared.point.Point.TheVariants.{Idle};
ghost use Rattle.core_machine.specs.declared.step.SpineStep.TheVariants.{BudgetTakeBack};
ghost use Rattle.core_machine.specs.declared.step.Step.TheVariants.{Spine};
ghost use Rattle.core_machine.specs.seat.Making.{gather_next};
ghost use Rattle.core_machine.specs.seat.Seat.{need};
ghost use Rattle.heap_table.specs.Made.{Made, FoundIn, MakesSteps};
ghost use Rattle.array_spine.specs.Granting.{BeginsGranting, BeginsDropping, IsTurnedDown, is_withdrawing as is_withdrawing_at};

use core_machine::{Entries, Making, Point, SpineStep, Step};
use heap_table::{Holder, step_laws};

/// The spine words that were granted to the array which a call makes.
#[derive(Drop)]
pub struct Budget {
    pub words: u16,
}

/// Why spine words weren't granted: so many were needed, and so many were found to be granted or asked for.
#[derive(Clone, Copy, Debug, PartialEq, Eq)]
pub struct SpineFull {
    pub need: u32,
    pub used: u32,
}

/// Whether the words that were asked for are too many, and are to be taken back.
fn is_withdrawing(point: Point) -> bool
    ensures { result ≡ is_withdrawing_at point }
{
    matches!(point, Point::Making(Making::Withdrawing))
}

/// Asks for the spine words of the array that the call in flight makes. Where they are too many beside those that it found to be granted or asked for,
/// it takes them back, and the call is over with its refusal.
pub fn take_budget<L: Entries>(holder: &mut Holder<L>, words: u16) -> Result<Budget, SpineFull>
    requires begins { BeginsGranting holder.old words }
    requires room { 2 ≤ holder.old.spare }
    ensures steps { (made : List Made) × MakesSteps holder.old holder.new made
        × MatchResult result (λ budget. IsGranted (FoundIn made) holder.old.heap holder.old.seat.command) (λ full. IsTurnedDown made holder.old.heap full) }
    ensures words { IfOk result (λ budget. budget.words ≡ words) }
    ensures command { OnOk result (holder.new.seat.command ≡ holder.old.seat.command) }
    ensures gathers { OnOk result (holder.new.seat ≡ gather_next holder.old.heap holder.old.seat) }
    ensures room { OnOk result (holder.old.spare ≤ holder.new.spare) }
    ensures need { IfErr result (λ full. full.need ≡ words) }
    ensures told { IfErr result (λ full. holder.new.seat.mine ≡ holder.old.seat.mine ++ Said holder.old.number holder.old.seat.command (TellsSpineFull full.need full.used) ∷ []) }
    ensures kept { OnErr result (KeepsAll (kept_of holder.old.seat) (kept_of holder.new.seat)) }
    ensures over { OnErr result (holder.new.seat.point ≡ Idle) }
{
    step_laws();
    let used = holder.step(&Step::Spine(SpineStep::BudgetAdd { words }));
    if !is_withdrawing(holder.party().point()) {
        return Ok(Budget { words });
    }
    holder.step(&Step::Spine(SpineStep::BudgetTakeBack { words }));
    Err(SpineFull {
        need: u32::from(words),
        used: used as u32,
    })
}

/// Takes back the granted words of an array for which too few fragments were found: the call is over with that refusal.
pub fn drop_budget<L: Entries>(holder: &mut Holder<L>, budget: Budget)
    requires begins { BeginsDropping holder.old budget.words }
    requires room { 2 ≤ holder.old.spare }
    ensures steps { (made : List Made) × MakesSteps holder.old holder.new made × WasMade (FoundIn made) (Spine (BudgetTakeBack budget.words)) }
    ensures told { holder.new.seat.mine ≡ holder.old.seat.mine
        ++ Said holder.old.number holder.old.seat.command (TellsFull (need holder.old.seat) (length holder.old.seat.reserve + holder.old.seat.given)) ∷ [] }
    ensures kept { KeepsAll (kept_of holder.old.seat) (kept_of holder.new.seat) }
    ensures over { holder.new.seat.point ≡ Idle }
{
    step_laws();
    let words = budget.words;
    holder.step(&Step::Spine(SpineStep::BudgetTakeBack { words }));
}
