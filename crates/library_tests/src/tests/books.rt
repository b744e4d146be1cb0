//! The graph and the account of a heap, by which entries are judged one after another.

use heap_model::{Account, ApplyFault, Entry, Graph, Memory};

/// More entries than a test here has.
const MOST_ENTRIES: u64 = 1_000_000;

/// Counts the entry in both books, if it may stand there in a run.
pub(super) fn accepts(
    graph: &mut Graph,
    account: &mut Account,
    entry: &Entry,
) -> Result<bool, Memory> {
    if account.entries() >= MOST_ENTRIES || !account.has_seat(entry) {
        return Ok(false);
    }
    let counted = match account.apply(graph, entry, false) {
        Ok(()) => graph.apply(entry),
        Err(fault) => Err(fault),
    };
    match counted {
        Ok(()) => Ok(true),
        Err(ApplyFault::NotLegal) => Ok(false),
        Err(ApplyFault::Memory) => Err(Memory),
    }
}

/// Counts each of the entries in both books, up to the first that may not stand there: whether there was none.
pub(super) fn accepts_all(
    graph: &mut Graph,
    account: &mut Account,
    entries: &[Entry],
) -> Result<bool, Memory> {
    for entry in entries {
        if !accepts(graph, account, entry)? {
            return Ok(false);
        }
    }
    Ok(true)
}
