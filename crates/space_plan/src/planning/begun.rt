ghost use Rattle.std.specs.Prelude.{◌≡◌, ◌≤◌, ◌+◌, ◌*◌, ◌^◌, ◌++◌, ◌∷◌, [], ℕ, true, List, IfOk, OnOk, sum};
ghost use Rattle.heap_model.specs.declared.entry.Entry.{Entry as AnEntry};
ghost use Rattle.heap_model.specs.Heap.{IsHeap};
ghost use Rattle.heap_model.specs.account.Books.{Tells};
ghost use Rattle.heap_model.specs.account.Cycles.{graph_of};
ghost use Rattle.heap_model.specs.account.Windows.{begins_cycle};
ghost use Rattle.heap_model.specs.graph.Objects.{made_counts};
ghost use Rattle.space_plan.specs.plan.Totals.{IsGreatest, IsReached};

use crate::planning::ledger::Ledger;
use crate::planning::reach::{reached_frags, reached_then};
use heap_model::phase_plan::{BARRIERS, CYCLE_PHASES};
use heap_model::{Account, Effect, Entry, Graph, Memory};

/// What is kept of the cycle that began last: the fragments that were reached then, those that the seats had after
/// their last replies, and those taken since these replies; and the most that was reached at any begin.
#[derive(Drop)]
pub struct BegunCycle {
    pub reach: u64,
    pub reserves: u64,
    pub since: u64,
    pub most_reach: u64,
}

/// Whether a cycle begins with the entry.
fn begins_cycle(entry: &Entry) -> bool
    ensures { result ≡ begins_cycle entry.now }
{
    match *entry {
        Entry::Advance(phase) => phase % CYCLE_PHASES == BARRIERS,
        _ => false,
    }
}

impl BegunCycle {
    ghost use Rattle.space_plan.specs.plan.Walking.{LedgerTells, LedgerFits, BegunTells, BegunFits};

    /// The opening in place of a cycle, before the first one begins.
    pub fn opening(ledger: &Ledger, graph: &Graph) -> Result<BegunCycle, Memory>
        requires heap { IsHeap ledger.now.heap }
        requires made { sum (made_counts graph.now) ≤ 0 }
        requires graph { graph.now ≡ graph_of ledger.now.heap [] }
        requires ledger { LedgerTells ledger.now.heap ledger.now [] }
        ensures tells { IfOk result (λ begun. BegunTells ledger.now.heap begun []) }
        ensures fits { IfOk result (BegunFits 0) }
    {
        let reach = reached_frags(graph)?;
        Ok(BegunCycle {
            reach,
            reserves: 0,
            since: 0,
            most_reach: u64::from(ledger.heap.board_fragments()),
        })
    }

    /// A cycle that begins with the last entry, where so much was reached at most before.
    fn begin(ledger: &Ledger, account: &Account, most_reach: u64) -> Result<BegunCycle, Memory>
        requires heap { IsHeap ledger.now.heap }
        requires counted { account.now.entries ≤ 2 ^ 22 }
        requires few { LedgerFits (2 ^ 22) ledger.now }
        ensures tells { (history : List AnEntry) (entry : AnEntry) → begins_cycle entry ≡ true →
            LedgerTells ledger.now.heap ledger.now (history ++ entry ∷ []) →
            account.now.heap ≡ ledger.now.heap → Tells account.now (history ++ entry ∷ []) →
            IsGreatest (IsReached ledger.now.heap history) most_reach →
            IfOk result (λ begun. BegunTells ledger.now.heap begun (history ++ entry ∷ [])) }
        ensures fits { (n : ℕ) → account.now.entries ≤ n → LedgerFits n ledger.now →
            most_reach ≤ 2 ^ 32 * (n + 1) → IfOk result (BegunFits n) }
    {
        let reach = reached_then(account)?;
        let sums = ledger.seats.sums(ledger.heap.seats);
        Ok(BegunCycle {
            reach,
            reserves: sums.reserves,
            since: sums.since,
            most_reach: most_reach.max(reach),
        })
    }

    /// Goes over the entry, after which the ledger and the account are these.
    pub fn pass(&mut self, ledger: &Ledger, account: &Account, entry: &Entry) -> Result<(), Memory>
        requires heap { IsHeap ledger.now.heap }
        requires counted { account.now.entries ≤ 2 ^ 22 }
        requires few { LedgerFits (2 ^ 22) ledger.now }
        requires few_begun { BegunFits (2 ^ 22) self.old }
        ensures tells { (history : List AnEntry) → BegunTells ledger.now.heap self.old history →
            LedgerTells ledger.now.heap ledger.now (history ++ entry.now ∷ []) →
            account.now.heap ≡ ledger.now.heap → Tells account.now (history ++ entry.now ∷ []) →
            OnOk result (BegunTells ledger.now.heap self.new (history ++ entry.now ∷ [])) }
        ensures fits { (n : ℕ) → account.now.entries ≤ n + 1 → LedgerFits (n + 1) ledger.now →
            BegunFits n self.old → OnOk result (BegunFits (n + 1) self.new) }
    {
        if begins_cycle(entry) {
            *self = BegunCycle::begin(ledger, account, self.most_reach)?;
        } else {
            self.since += Effect::of(entry).taken;
        }
        Ok(())
    }
}
