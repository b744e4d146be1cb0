ghost use Rattle.std.specs.Prelude.{◌≡◌, ◌%◌, ◌↔◌, List, IsTrue};
ghost use Rattle.heap_model.specs.declared.entry.Entry.{Entry as Entries};
ghost use Rattle.heap_model.specs.declared.entry.Entry.TheVariants as entries;

use crate::account::Account;
use crate::graph::Graph;
use crate::id::Id;
use crate::phase_plan::{CLEARING, COPYING, CYCLE_PHASES, SWEEP};

impl Account {
    ghost use Rattle.heap_model.specs.PhasePlan.{cycle_phases, sweep};
    ghost use Rattle.heap_model.specs.account.PhaseCounts.{phase};
    ghost use Rattle.heap_model.specs.account.Books.{Tells};
    ghost use Rattle.heap_model.specs.account.Cycles.{graph_of, EndsCycle};
    ghost use Rattle.heap_model.specs.account.Sweep.{Sweeps};

    pub(super) fn may_free(&self, count: u32) -> bool
        ensures { (history : List Entries) → Tells self.now history → (IsTrue result ↔ Sweeps self.now.heap history (entries.Frees count)) }
    {
        self.is_sweep() && 1 <= count && self.lost() + count as u128 <= self.gained()
    }

    pub(super) fn may_return(&self, count: u32) -> bool
        ensures { (history : List Entries) → Tells self.now history → (IsTrue result ↔ Sweeps self.now.heap history (entries.Returns count)) }
    {
        self.is_sweep()
            && 1 <= count
            && self.all.returned as u128 + count as u128 <= self.all.words as u128
    }

    fn is_sweep(&self) -> bool
        ensures { (history : List Entries) → Tells self.now history → (IsTrue result ↔ (phase history % cycle_phases ≡ sweep)) }
    {
        self.all.phases % CYCLE_PHASES == SWEEP
    }

    pub(super) fn may_swing(&self, graph: &Graph, id: Id) -> bool
        ensures { (history : List Entries) → Tells self.now history → graph.now ≡ graph_of self.now.heap history → (IsTrue result ↔ Sweeps self.now.heap history (entries.Swings id)) }
    {
        self.all.phases % CYCLE_PHASES == COPYING && graph.is_array(id) && !self.swung.has(id)
    }

    pub(super) fn may_end(&mut self, graph: &Graph, cycle: u64, kept: u64) -> bool
        ensures ends { (history : List Entries) → Tells self.old history → graph.now ≡ graph_of self.old.heap history → (IsTrue result ↔ EndsCycle self.old.heap history (entries.Ends cycle kept)) }
        ensures unchanged { self.new ≡ self.old }
    {
        if self.all.phases as u128 != CYCLE_PHASES as u128 * cycle as u128 + CLEARING as u128
            || !self.all_answered()
        {
            return false;
        }
        self.leaves_little(graph, kept)
    }
}
