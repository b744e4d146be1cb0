ghost use Rattle.heap_model.specs.Heap.{IsHeap};

use super::player::Told;
use crate::tests::books::accepts;
use heap_model::{Account, Entry, Graph, Heap, Memory};
use heap_table::Closed;
use std::alloc::Global;

/// What is wrong with a play.
#[derive(Clone, Copy, Debug, PartialEq)]
pub(super) enum Fault {
    /// The entry at this position may not stand there.
    NotLegal(usize),
    /// The log at this position has other entries than its party told.
    OtherLog(usize),
    /// Something is in use at the end.
    InUse,
}

/// The first entry that may not stand where it came, or that something is in use at the end, by books in which nothing was counted yet.
fn fault_by(
    graph: &mut Graph,
    account: &mut Account,
    told: &Told,
) -> Result<Option<Fault>, Memory> {
    for (position, entry) in told.iter().enumerate() {
        let legal = match entry {
            Some(entry) => accepts(graph, account, entry)?,
            None => false,
        };
        if !legal {
            return Ok(Some(Fault::NotLegal(position)));
        }
    }
    if account.used() > 0 || account.spine() > 0 {
        return Ok(Some(Fault::InUse));
    }
    Ok(None)
}

/// What is wrong with these entries in their order, by a graph in which none was counted yet, if anything is.
fn fault_on(
    alloc: Global,
    heap: Heap,
    graph: &mut Graph,
    told: &Told,
) -> Result<Option<Fault>, Memory>
    requires { IsHeap heap }
{
    let mut account = Account::new(alloc, heap)?;
    fault_by(graph, &mut account, told)
}

/// What is wrong with these entries in their order, if anything is.
fn fault_among(alloc: Global, heap: Heap, told: &Told) -> Result<Option<Fault>, Memory>
    requires { IsHeap heap }
{
    let mut graph = Graph::new(alloc, heap)?;
    fault_on(alloc, heap, &mut graph, told)
}

/// Whether the party's entries are exactly these.
fn has_told(told: &Told, party: Option<u8>, log: &[Entry]) -> bool {
    let mut rest = log.iter();
    for entry in told.iter().flatten() {
        if entry.seat() == party && rest.next() != Some(entry) {
            return false;
        }
    }
    rest.next().is_none()
}

/// What is wrong with a play that has told this, if anything is.
pub(super) fn fault_in(
    alloc: Global,
    heap: Heap,
    told: &Told,
    closed: &Closed,
) -> Result<Option<Fault>, Memory>
    requires { IsHeap heap }
{
    for (position, log) in closed.logs().iter().enumerate() {
        let party = u8::try_from(position)
            .ok()
            .filter(|&seat| seat < heap.seats);
        if !has_told(told, party, log.as_slice()) {
            return Ok(Some(Fault::OtherLog(position)));
        }
    }
    fault_among(alloc, heap, told)
}
