ghost use Rattle.std.specs.Prelude.{◌≡◌, ◌<◌, ◌+◌, ◌*◌, ◌^◌, ℕ, Err, IfOk, length};
ghost use Rattle.std.specs.List.{AllByRecursion};
ghost use Rattle.heap_model.specs.Heap.{IsHeap};
ghost use Rattle.heap_model.specs.account.Noting.{IsSeatBelow};
ghost use Rattle.reply_text.specs.History.{IsSpellable};
ghost use Rattle.log_merge.specs.Legal.{IsLegalHistory};
ghost use Rattle.log_merge.specs.Lines.{IsFirstIllegal};
ghost use Rattle.space_plan.specs.cycle_turns.CycleTurns.{cycle_most};
ghost use Rattle.space_plan.specs.plan.Report.{IsPlan};
ghost use Rattle.space_plan.specs.plan.Totals.{groups_for};
ghost use Rattle.space_plan.specs.plan.Walking.{Passed, WalkFits};

use crate::report::PlanReport;
use heap_model::limits::{GROUP_FRAGMENTS, MOST_RESERVE};
use heap_model::{Entry, Heap, Memory};
use log_merge::{CheckFault, check};
use needs::{most_need, refused};
use reply_text::History;
use script_text::Form;
use std::alloc::Global;
use walk::Walk;

mod begun;
mod ended;
mod ledger;
mod needs;
mod reach;
mod seat_space;
mod seat_spaces;
mod walk;

/// Goes over all entries.
fn walk_over(alloc: Global, heap: Heap, entries: &[Entry]) -> Result<Walk, Memory>
    requires heap { IsHeap heap }
    requires few { length entries.now < 2 ^ 22 }
    requires seats { AllByRecursion (IsSeatBelow heap.seats) entries.now }
    ensures passed { IfOk result (λ walk. Passed walk entries.now) }
    ensures fits { IfOk result (WalkFits (2 ^ 22)) }
    ensures heap { IfOk result (λ walk. walk.ledger.heap ≡ heap) }
{
    let mut walk = Walk::begin(alloc, heap)?;
    for entry in entries {
        walk.pass(entry)?;
    }
    Ok(walk)
}

/// The groups that have room for these numbers of fragments, with a reserve of each seat.
fn groups_for(reach: u64, takes: u64, seats: u8, need: u64) -> u64
    requires reach { reach < 2 ^ 60 }
    requires takes { takes < 2 ^ 60 }
    requires need { need < 2 ^ 60 }
    ensures { result ≡ groups_for reach takes seats need }
{
    let reserves = u64::from(MOST_RESERVE) * u64::from(seats);
    (reach + 2 * takes + reserves + need).div_ceil(u64::from(GROUP_FRAGMENTS))
}

/// The most turns of the collector from one end of a cycle to the next, those that find a seat behind left out.
fn cycle_most(heap: Heap) -> u64
    requires { IsHeap heap }
    ensures { result ≡ cycle_most heap }
{
    let groups = u64::from(heap.groups);
    16 * groups * groups + 294 * groups + 7 * u64::from(heap.seats) + 8
}

/// What a legal play tells of the space that it needs. Where its heap has as many groups as the report names, no
/// command was refused for want of fragments, whatever the number of its seats.
pub fn plan(alloc: Global, history: &History) -> Result<PlanReport, CheckFault>
    requires spellable { IsSpellable history.now }
    requires play { history.now.form ≡ Form.Play }
    ensures legal { IfOk result (λ _. IsLegalHistory history.now) }
    ensures not_legal { (line : ℕ) → result ≡ Err (CheckFault.NotLegal line) →
        IsFirstIllegal history.now line × ¬ IsLegalHistory history.now }
    ensures plan { IfOk result (IsPlan history.now) }
{
    check(alloc, history)?;
    let entries = history.entries.as_slice();
    let walk = walk_over(alloc, history.heap, entries)?;
    let most_reach = walk.begun.most_reach;
    let most_takes = walk.ended.most_taken.max(walk.ledger.section);
    let most_need = most_need(entries);
    Ok(PlanReport {
        cycles: walk.ended.cycles,
        most_reach,
        most_takes,
        most_need,
        groups: groups_for(most_reach, most_takes, history.heap.seats, most_need),
        turns: cycle_most(history.heap),
        full: refused(entries),
    })
}
