ghost use Rattle.std.specs.Prelude.{◌≡◌, ◌≤◌, map, All, IfOk};
ghost use Rattle.heap_runs.specs.SeatWork.{IsReadyToWork, HasWorked, HaveWorked, script_at};

use crate::role::{Held, HeldName};
use crate::seat_work::work;
use heap_model::{Command, Gate, Memory};
use heap_record::{SlackWork, work_slack};
use mutator_seat::Seat;
use std::alloc::Global;
use std::sync::{Mutex, Wait};
use std::thread::{Threads, join, map_vec};

/// The seats of the workers that came to their ends, if memory was wanting to none.
fn each_seat(alloc: Global, done: Vec<Result<Seat, Memory>>) -> Result<Vec<Seat>, Memory>
    ensures { IfOk result (λ back. done.items ≡ map (λ seat. Ok seat) back.items) }
{
    let mut back = Vec::new(alloc);
    for seat in done {
        back.push(seat?)?;
    }
    Ok(back)
}

/// Lets each seat work on its script in a thread of its own, while one more makes the collector's slack turns until it is told under the lock that all of these have ended, and hands the
/// seats back in their order. Where a thread can't be had the caller does its work.
pub fn work_all<N: HeldName + Send + Sync, G: Gate, R: Threads + Wait + Sync>(
    rt: &R,
    alloc: Global,
    held: &Mutex<Held<N>>,
    seats: Vec<Seat>,
    scripts: &[Vec<Command>],
    patience: u32,
    gate: &G,
) -> Result<Vec<Seat>, Memory>
    requires ready { All (IsReadyToWork N.table N.heap (map (λ script. script.items) scripts.now)) seats.items }
    requires patience { 1 ≤ patience }
    ensures { IfOk result (λ done. HaveWorked patience (map (λ script. script.items) scripts.now) seats.items done.items) }
{
    let (turns, back) = join(
        rt,
        move || work_slack(rt, held, &mut ()),
        move || -> Result<Vec<Seat>, Memory>
            requires ready { All (IsReadyToWork N.table N.heap (map (λ script. script.items) scripts.now)) seats.items }
            requires patience { 1 ≤ patience }
            ensures { IfOk result (λ done. HaveWorked patience (map (λ script. script.items) scripts.entry.now) seats.items done.items) }
        {
            let done = map_vec(
                rt,
                seats,
                &|seat: Seat| -> Result<Seat, Memory>
                    requires ready { IsReadyToWork N.table N.heap (map (λ script. script.items) scripts.now) seat }
                    requires patience { 1 ≤ patience }
                    ensures { IfOk result (HasWorked patience seat (script_at (map (λ script. script.items) scripts.entry.now) seat.number)) }
                {
                    let number = seat.number() as usize;
                    work(rt, held, seat, scripts[number].as_slice(), patience, gate)
                },
            );
            held.lock(rt).end();
            each_seat(alloc, done?)
        },
    );
    turns?;
    back
}
