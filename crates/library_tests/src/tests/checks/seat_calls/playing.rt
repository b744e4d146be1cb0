//! A seat and a collector make what a history tells.

use super::calling::{call, may_call};
use crate::tests::comparing::{holds, same};
use heap_model::{CollectorCalls, Command, Entry, Memory, Reply, SeatCalls};
use std::alloc::Global;
use std::fmt::Display;
use std::process::Abort;

/// More turns than a phase of these stories takes.
const MANY: u32 = 100;

/// Makes turns up to the next phase, if so many lead there.
fn end_phase<C: CollectorCalls>(collector: &mut C) -> Result<(), Memory> {
    let phase = collector.phase();
    for _ in 0..MANY {
        if collector.phase() != phase {
            break;
        }
        collector.room(2)?;
        collector.turn();
    }
    Ok(())
}

/// Calls the seat by the command, which is answered so.
pub fn answers<S: SeatCalls>(
    rt: &impl Abort,
    seat: &mut S,
    command: Command,
    reply: Reply,
    at: &impl Display,
) -> Result<(), Memory> {
    seat.room(100)?;
    holds(rt, may_call(seat, &command), at);
    same(rt, &call(seat, command), &Some(reply), at);
    Ok(())
}

/// Calls the seat by each command that is told, and makes the turns up to each phase.
pub fn play<S: SeatCalls, C: CollectorCalls>(
    rt: &impl Abort,
    seat: &mut S,
    collector: &mut C,
    entries: &[Entry],
    story: &str,
) -> Result<(), Memory> {
    for entry in entries {
        match *entry {
            Entry::Advance(_) => end_phase(collector)?,
            Entry::Said { command, reply, .. } => {
                answers(rt, seat, command, reply, &story)?;
            }
            _ => {}
        }
    }
    Ok(())
}

/// The entries that a seat tells and those that the collector tells, where it tells phases alone.
pub fn parted(alloc: Global, entries: &[Entry]) -> Result<(Vec<Entry>, Vec<Entry>), Memory> {
    let mut seats = Vec::new(alloc);
    let mut phases = Vec::new(alloc);
    for entry in entries {
        match *entry {
            Entry::Advance(_) => phases.push(*entry)?,
            _ => seats.push(*entry)?,
        }
    }
    Ok((seats, phases))
}
