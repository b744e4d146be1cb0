//! Entries that can't stand behind others: what is replaced never comes back, and no phase does. So an entry waits for those of other logs, which else had no place any more.

use heap_model::phase_plan::{BARRIERS, CYCLE_PHASES};
use heap_model::{Command, Entry, Reply};

/// The phase that the entry begins.
fn begun_by(entry: &Entry) -> Option<u64> {
    match *entry {
        Entry::Advance(phase) => Some(phase),
        Entry::Ends { cycle, .. } => Some(cycle.saturating_add(1).saturating_mul(CYCLE_PHASES)),
        _ => None,
    }
}

/// Whether the get finds what the set replaces. A stamp stands in one cell alone; where there is none yet, only the board's cells are known by their indexes.
fn gets_replaced(get: (u8, u32, u32), set: (u8, u32, u32)) -> bool {
    let (_, _, stamp) = get;
    if stamp == 0 {
        let (r, _, _) = get;
        return r == 0 && get == set;
    }
    let (_, _, was) = set;
    stamp == was
}

/// Whether the entry is a set that replaces what the command has found, by this stamp.
fn replaces_found(entry: &Entry, command: Command, stamp: u32) -> bool {
    let Command::Get { r, i, .. } = command else {
        return false;
    };
    match *entry {
        Entry::Said {
            command: Command::Set { r: own, i: at, .. },
            reply: Reply::Was(was),
            ..
        } => gets_replaced((r, i, stamp), (own, at, was)),
        _ => false,
    }
}

/// Whether the reply can't be given any more behind the entry. It is `due` where it is the next reply of its seat: else the last one before it is yet to come, too.
fn is_too_late(command: Command, reply: Reply, due: bool, entry: &Entry) -> bool {
    match reply {
        Reply::Got { stamp, .. } => replaces_found(entry, command, stamp),
        Reply::Phase(phase) => begun_by(entry).is_some_and(|begun| phase < begun),
        Reply::Cycle(cycle) if !due => {
            let begin = cycle.saturating_mul(CYCLE_PHASES).saturating_add(BARRIERS);
            begun_by(entry) == Some(begin)
        }
        Reply::Waits { seat, phase, .. } if !due => *entry == Entry::Answers { seat, phase },
        _ => false,
    }
}

/// Whether one of the entries, which are the rest of another log, can't stand behind this one.
pub(super) fn is_behind(rest: &[Entry], entry: &Entry) -> bool {
    let mut due = true;
    for other in rest {
        if let Entry::Said { command, reply, .. } = *other {
            if is_too_late(command, reply, due, entry) {
                return true;
            }
            due = false;
        }
    }
    false
}
