ghost use Rattle.std.specs.Prelude.{◌≡◌, ◌-◌, ◌<◌, ◌≤◌, [], map, vec_len, All, IfOk, OnOk};
ghost use Rattle.std.specs.List.{range_with_len};
ghost use Rattle.crossbeam_queue.specs.Passes.{view, IsPassOf, ruled_capacity};
ghost use Rattle.script_crew.specs.Positions.{all_shares, tally};
ghost use Rattle.script_crew.specs.Working.{HasFreshPass};

use crate::position_rule::{PositionPass, PositionQueue, Pushing, Sharing};
use crate::worker::Worker;
use heap_model::Memory;
use mutator_seat::Seat;
use std::alloc::Global;
use std::sync::Wait;

/// Pushes so many positions, from 0 on, into a queue that holds as many.
pub fn push_positions<R: Wait>(rt: &R, queue: &PositionQueue, pass: &mut PositionPass, count: u32)
    requires queue { IsPassOf queue.now pass.old }
    requires capacity { ruled_capacity queue.now ≡ count }
    requires first { view pass.old ≡ tally all_shares [] [] [] }
    ensures queue { IsPassOf queue.now pass.new }
    ensures pushed { view pass.new ≡ tally all_shares (range_with_len 0 count) [] (range_with_len 0 count) }
{
    for position in 0..count {
        match queue.push_as::<Pushing, R>(rt, pass, position) {
            Ok(()) => {}
            Err(_) => unreachable!(),
        }
    }
}

/// A worker for each seat: each gets a pass, and a share of the one that is handed in.
pub fn equip(
    alloc: Global,
    queue: &PositionQueue,
    pass: &mut PositionPass,
    seats: Vec<Seat>,
) -> Result<Vec<Worker>, Memory>
    requires queue { IsPassOf queue.now pass.old }
    requires shares { vec_len seats < (view pass.old).shares }
    ensures queue { IsPassOf queue.now pass.new }
    ensures rest { OnOk result (view pass.new ≡ tally ((view pass.old).shares - vec_len seats) (view pass.old).pushed (view pass.old).popped (view pass.old).known) }
    ensures seats { IfOk result (λ workers. map (λ worker. worker.seat) workers.items ≡ seats.items) }
    ensures passes { IfOk result (λ workers. All (HasFreshPass queue.now (view pass.old).known) workers.items) }
{
    let mut workers = Vec::new(alloc);
    for seat in seats {
        let own = queue.another::<Sharing>(pass);
        workers.push(Worker { seat, pass: own })?;
    }
    Ok(workers)
}
