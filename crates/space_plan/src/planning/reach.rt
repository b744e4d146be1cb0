ghost use Rattle.std.specs.Prelude.{◌<◌, ◌≤◌, ◌+◌, ◌*◌, ◌^◌, List, IfOk, sum};
ghost use Rattle.heap_model.specs.declared.entry.Entry.{Entry as AnEntry};
ghost use Rattle.heap_model.specs.account.Books.{Tells};
ghost use Rattle.heap_model.specs.account.Cycles.{graph_of};
ghost use Rattle.heap_model.specs.account.PhaseCounts.{phase};
ghost use Rattle.heap_model.specs.account.Windows.{up_to_cycle};
ghost use Rattle.heap_model.specs.graph.Objects.{made_counts};
ghost use Rattle.heap_model.specs.graph.Sizes.{HasReach};

use heap_model::{Account, Graph, Memory};

/// The fragments of all that is reached.
pub fn reached_frags(graph: &Graph) -> Result<u64, Memory>
    requires { sum (made_counts graph.now) ≤ 2 ^ 22 }
    ensures reach { IfOk result (HasReach graph.now) }
    ensures fits { IfOk result (λ frags. frags ≤ 2 ^ 32 * (sum (made_counts graph.now) + 1)) }
{
    let ids = graph.reach()?;
    let mut sum = 0;
    for id in &ids {
        sum += u64::from(graph.frags(*id));
    }
    Ok(sum)
}

/// The fragments of all that was reached when the last cycle began. More of them than objects of 2^32 fragments have, one for each entry, are more than memory holds.
pub fn reached_then(account: &Account) -> Result<u64, Memory>
    requires { account.now.entries ≤ 2 ^ 22 }
    ensures reach { IfOk result (λ frags. (history : List AnEntry) → Tells account.now history → 1 ≤ phase history →
        HasReach (graph_of account.now.heap (up_to_cycle history)) frags) }
    ensures fits { IfOk result (λ frags. frags ≤ 2 ^ 32 * (account.now.entries + 1)) }
{
    let most = (account.entries() + 1) * (1 << 32);
    match u64::try_from(account.reached_then()) {
        Ok(frags) if frags <= most => Ok(frags),
        _ => Err(Memory),
    }
}
