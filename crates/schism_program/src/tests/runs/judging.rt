//! What histories of runs are judged by.

ghost use Rattle.heap_model.specs.Heap.{IsHeap};

use heap_model::{Account, Entry, Graph, Heap, Memory};
use reply_text::read_history;
use std::alloc::Global;
use std::test::Fail;

/// Judges each entry of the history by all the rules of a run; at the end nothing may be in use.
pub fn judge(alloc: Global, text: &[u8]) -> Result<bool, Fail> {
    let history = read_history(alloc, text)?;
    let legal = judge_entries(alloc, history.heap, history.entries.as_slice())?;
    Ok(legal)
}

/// Judges the entries of a run on this heap.
fn judge_entries(alloc: Global, heap: Heap, entries: &[Entry]) -> Result<bool, Memory>
    requires { IsHeap heap }
{
    let mut graph = Graph::new(alloc, heap)?;
    let mut account = Account::new(alloc, heap)?;
    Ok(apply_all(&mut account, &mut graph, entries) && is_empty(&account))
}

/// Applies the entries up to the first that can't be, and tells whether all were applied.
fn apply_all(account: &mut Account, graph: &mut Graph, entries: &[Entry]) -> bool {
    for entry in entries {
        if !apply(account, graph, entry) {
            return false;
        }
    }
    true
}

/// Applies the entry where it is one of the heap's seats and keeps the rules.
fn apply(account: &mut Account, graph: &mut Graph, entry: &Entry) -> bool {
    if account.entries() >= 1 << 32 || !account.has_seat(entry) {
        return false;
    }
    account.apply(graph, entry, false).is_ok() && graph.apply(entry).is_ok()
}

/// Whether nothing is in use.
fn is_empty(account: &Account) -> bool {
    account.used() == 0 && account.spine() == 0
}

/// Whether the text has this part: a line with the line feeds before and behind it, or how a line begins with the one before it.
fn has(text: &[u8], part: &str) -> bool {
    match str::from_utf8(text) {
        Ok(text) => text.contains(part),
        Err(_) => false,
    }
}

/// Whether the text has all of these parts.
pub fn has_all(text: &[u8], parts: &[&str]) -> bool {
    for part in parts {
        if !has(text, part) {
            return false;
        }
    }
    true
}

/// Whether the text has all parts of one of these rows.
pub fn has_a_row(text: &[u8], rows: &[&[&str]]) -> bool {
    for parts in rows {
        if has_all(text, parts) {
            return true;
        }
    }
    false
}
