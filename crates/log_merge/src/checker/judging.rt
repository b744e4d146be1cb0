ghost use Rattle.std.specs.Prelude.{◌≡◌, ◌<◌, ◌≤◌, ◌+◌, ◌-◌, ◌^◌, [], ◌∷◌, ◌++◌, List, ℕ, Err, OnOk};
ghost use Rattle.std.specs.Option.{ForSome};
ghost use Rattle.heap_model.specs.declared.heap.Heap.{Heap};
ghost use Rattle.heap_model.specs.declared.entry.Entry.{Entry as AnEntry};
ghost use Rattle.heap_model.specs.account.Noting.{IsSeatBelow};
ghost use Rattle.heap_model.specs.account.Cycles.{graph_of};
ghost use Rattle.script_text.specs.declared.script.Form.{Form};
ghost use Rattle.log_merge.specs.Lines.{KeepsEntry, KeepsRules};
ghost use Rattle.log_merge.specs.Checking.{Accounts, AccountFits, Judged};

use crate::checker::Checker;
use heap_model::{Account, ApplyFault, Entry, Graph};

/// Judges the entry by the rules of space and phases, in a play.
fn judge(account: &mut Option<Account>, graph: &Graph, entry: &Entry) -> Result<(), ApplyFault>
    requires few { ForSome account.old (λ books. books.entries < 2 ^ 32) }
    requires seat { ForSome account.old (λ books. IsSeatBelow books.heap.seats entry.now) }
    ensures keeps { (form : Form) (heap : Heap) (before : List AnEntry) →
        Accounts form heap account.old before → graph.now ≡ graph_of heap before →
        OnOk result (KeepsRules form heap before entry.now) }
    ensures tells { (form : Form) (heap : Heap) (before : List AnEntry) →
        Accounts form heap account.old before → graph.now ≡ graph_of heap before →
        OnOk result (Accounts form heap account.new (before ++ entry.now ∷ [])) }
    ensures not_legal { (form : Form) (heap : Heap) (before : List AnEntry) →
        Accounts form heap account.old before → graph.now ≡ graph_of heap before →
        result ≡ Err ApplyFault.NotLegal → ¬ KeepsRules form heap before entry.now }
    ensures ready { (heap : Heap) (most : ℕ) →
        ForSome account.old (λ books. (books.heap ≡ heap) × (books.entries ≤ most)) →
        OnOk result (ForSome account.new (λ books. (books.heap ≡ heap) × (books.entries ≤ most + 1))) }
{
    match account {
        Some(account) => account.apply(graph, entry, true),
        None => Ok(()),
    }
}

impl Checker {
    /// Judges the entry, and lets graph and account go on by it.
    pub(super) fn apply(&mut self, entry: &Entry) -> Result<(), ApplyFault>
        requires few { self.old.line < 2 ^ 32 - 1 }
        requires ready { AccountFits self.old }
        requires seat { IsSeatBelow self.old.heap.seats entry.now }
        ensures keeps { (form : Form) (before : List AnEntry) → Judged form self.old before →
            OnOk result (KeepsEntry form self.old.heap before entry.now) }
        ensures judged { (form : Form) (before : List AnEntry) → Judged form self.old before →
            OnOk result (Judged form self.new (before ++ entry.now ∷ [])) }
        ensures not_legal { (form : Form) (before : List AnEntry) → Judged form self.old before →
            result ≡ Err ApplyFault.NotLegal → ¬ KeepsEntry form self.old.heap before entry.now }
        ensures ready { OnOk result (AccountFits (record self.new { line = self.old.line + 1 })) }
        ensures heap { self.new.heap ≡ self.old.heap }
        ensures line { self.new.line ≡ self.old.line }
    {
        judge(&mut self.account, &self.graph, entry)?;
        self.graph.apply(entry)
    }
}
