ghost use Rattle.std.specs.Prelude.{◌+◌, ◌*◌, ◌<◌, ◌≤◌, OnOk};
ghost use Rattle.heap_record.specs.LastCycle.{EndsWholeCycle};

use heap_model::phase_plan::{CYCLE_PHASES, REST};
use heap_model::{CollectorCalls, Memory, Turn};
use std::sync::Wait;

/// The first cycle that begins at this phase or behind it.
pub fn next_whole_cycle(phase: u64) -> u64
    ensures behind { phase ≤ 7 * result }
    ensures first { 7 * result < phase + 7 }
{
    if phase % CYCLE_PHASES == REST {
        phase / CYCLE_PHASES
    } else {
        phase / CYCLE_PHASES + 1
    }
}

/// Makes turns up to the end of the first cycle that begins not before the first of them, and room for the entries of each.
pub fn end_whole_cycle<C: CollectorCalls, R: Wait>(rt: &R, collector: &mut C) -> Result<(), Memory>
    ensures { OnOk result (EndsWholeCycle C.state C.roomed C.turned collector.old collector.new) }
{
    let target = next_whole_cycle(collector.phase());
    for _ in rt.forever() {
        collector.room(2)?;
        if let Turn::Ended { cycle, .. } = collector.turn() {
            if cycle == target {
                return Ok(());
            }
        }
    }
    unreachable!()
}
