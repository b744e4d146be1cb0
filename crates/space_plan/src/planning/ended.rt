ghost use Rattle.std.specs.Prelude.{◌≡◌, ◌≤◌, ◌+◌, ◌*◌, ◌^◌, ◌++◌, ◌∷◌, [], ℕ, List, OnOk};
ghost use Rattle.heap_model.specs.declared.entry.Entry.{Entry as AnEntry};
ghost use Rattle.heap_model.specs.declared.entry.Entry.TheVariants.{Ends};
ghost use Rattle.heap_model.specs.declared.heap.Heap.{Heap};
ghost use Rattle.space_plan.specs.plan.Moments.{Moment, ends_of};
ghost use Rattle.space_plan.specs.plan.Cycles.{IsCyclePlan};
ghost use Rattle.space_plan.specs.plan.Takes.{taken_since_end};
ghost use Rattle.space_plan.specs.plan.Walking.{LedgerTells, LedgerFits, BegunTells, BegunFits, EndedTells};

use crate::planning::begun::BegunCycle;
use crate::planning::ledger::Ledger;
use crate::report::CyclePlan;
use heap_model::{Entry, Memory};
use std::alloc::Global;

/// The cycles that ended so far, and the most that was taken for one of them or since the end before it.
#[derive(Drop)]
pub struct EndedCycles {
    pub cycles: Vec<CyclePlan>,
    pub most_taken: u64,
}

/// The line of the last cycle that began, where it ends here.
fn cycle_plan(ledger: &Ledger, begun: &BegunCycle, cycle: u64, kept: u64) -> CyclePlan
    requires { BegunFits (2 ^ 22) begun.now }
    ensures tells { (history : List AnEntry) → LedgerTells ledger.now.heap ledger.now history →
        BegunTells ledger.now.heap begun.now history →
        IsCyclePlan ledger.now.heap (record { before = history; entry = Ends cycle kept }) result }
    ensures since { result.since ≡ begun.now.since }
{
    CyclePlan {
        cycle,
        reach: begun.reach,
        since: begun.since,
        bound: begun.reach + begun.reserves + begun.since,
        used: ledger.used(),
        kept,
    }
}

impl EndedCycles {
    pub fn none(alloc: Global) -> EndedCycles
        ensures tells { (heap : Heap) → EndedTells heap result [] }
        ensures fits { result.most_taken ≡ 0 }
    {
        EndedCycles {
            cycles: Vec::new(alloc),
            most_taken: 0,
        }
    }

    /// Adds a cycle, where so much was taken since the end before it.
    fn add(&mut self, plan: CyclePlan, section: u64) -> Result<(), Memory>
        ensures tells { (heap : Heap) (ends : List Moment) (at : Moment) → EndedTells heap self.old ends →
            IsCyclePlan heap at plan → section ≡ taken_since_end at.before →
            OnOk result (EndedTells heap self.new (ends ++ at ∷ [])) }
        ensures fits { (most : ℕ) → self.old.most_taken ≤ most → plan.since ≤ most → section ≤ most →
            OnOk result (self.new.most_taken ≤ most) }
    {
        self.cycles.push(plan)?;
        self.most_taken = self.most_taken.max(plan.since).max(section);
        Ok(())
    }

    /// Goes over the entry, before which the ledger and the last cycle that began are these.
    pub fn pass(&mut self, ledger: &Ledger, begun: &BegunCycle, entry: &Entry) -> Result<(), Memory>
        requires { BegunFits (2 ^ 22) begun.now }
        ensures tells { (history : List AnEntry) → LedgerTells ledger.now.heap ledger.now history →
            BegunTells ledger.now.heap begun.now history →
            EndedTells ledger.now.heap self.old (ends_of history) →
            OnOk result (EndedTells ledger.now.heap self.new (ends_of (history ++ entry.now ∷ []))) }
        ensures fits { (n : ℕ) → LedgerFits n ledger.now → BegunFits n begun.now →
            self.old.most_taken ≤ 2 ^ 36 * n → OnOk result (self.new.most_taken ≤ 2 ^ 36 * n) }
    {
        if let Entry::Ends { cycle, kept } = *entry {
            let plan = cycle_plan(ledger, begun, cycle, kept);
            self.add(plan, ledger.section)?;
        }
        Ok(())
    }
}
