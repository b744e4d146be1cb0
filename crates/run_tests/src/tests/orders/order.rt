ghost use Rattle.heap_model.specs.Heap.{IsHeap};

use super::books::{Books, Verdict};
use heap_model::{Entry, Heap, Memory};
use std::alloc::Global;

/// The number of the log that each entry comes from.
pub(super) type Order = Vec<usize>;

/// How many entries of the log are in the order.
fn placed_of(order: &[usize], number: usize) -> usize {
    let mut placed = 0usize;
    for other in order {
        if *other == number {
            placed = placed.saturating_add(1);
        }
    }
    placed
}

/// How many entries each log has in the order, with one more of this log.
pub(super) fn counts_with(order: &[usize], next: usize) -> [usize; 3] {
    [0, 1, 2].map(|number| placed_of(order, number).saturating_add(usize::from(number == next)))
}

/// The entries of the log that are in the order, and those that aren't yet.
fn parts_of<'a>(
    logs: &'a [Vec<Entry>],
    order: &[usize],
    number: usize,
) -> (&'a [Entry], &'a [Entry]) {
    let Some(log) = logs.get(number) else {
        return (&[], &[]);
    };
    log.as_slice()
        .split_at(log.len().min(placed_of(order, number)))
}

/// The entries of the log that aren't in the order yet.
pub(super) fn rest_of<'a>(logs: &'a [Vec<Entry>], order: &[usize], number: usize) -> &'a [Entry] {
    let (_, rest) = parts_of(logs, order, number);
    rest
}

/// How many replies of the log are in the order.
pub(super) fn replies_of(logs: &[Vec<Entry>], order: &[usize], number: usize) -> usize {
    let (placed, _) = parts_of(logs, order, number);
    let mut replies = 0usize;
    for entry in placed {
        if let Entry::Said { .. } = entry {
            replies = replies.saturating_add(1);
        }
    }
    replies
}

/// Whether each entry of each log is in the order.
pub(super) fn has_all(logs: &[Vec<Entry>], order: &[usize]) -> bool {
    for number in 0..logs.len() {
        if !rest_of(logs, order, number).is_empty() {
            return false;
        }
    }
    true
}

/// Whether the books accept the entries in this order, and have counted them then.
pub(super) fn accept(
    books: &mut Books,
    logs: &[Vec<Entry>],
    order: &[usize],
) -> Result<bool, Memory> {
    for (position, number) in order.iter().enumerate() {
        let (before, _) = order.split_at(position);
        let Some(entry) = rest_of(logs, before, *number).first() else {
            return Ok(false);
        };
        let Verdict::Accepted = books.judge(entry)? else {
            return Ok(false);
        };
    }
    Ok(true)
}

/// Whether the books accept all entries of the logs in this order, and nothing is in use behind them.
fn agree(books: &mut Books, logs: &[Vec<Entry>], order: &[usize]) -> Result<bool, Memory> {
    Ok(accept(books, logs, order)? && has_all(logs, order) && books.are_even())
}

/// Whether the books of a heap that opens do so.
pub(super) fn stands(
    alloc: Global,
    heap: Heap,
    logs: &[Vec<Entry>],
    order: &[usize],
) -> Result<bool, Memory>
    requires { IsHeap heap }
{
    let mut books = Books::opening(alloc, heap)?;
    agree(&mut books, logs, order)
}
