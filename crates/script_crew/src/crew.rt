ghost use Rattle.std.specs.Prelude.{◌≡◌, ◌<◌, ◌≤◌, length, vec_len, All, IfOk};
ghost use Rattle.std.specs.List.{range_with_len};
ghost use Rattle.script_crew.specs.Crews.{IsFreshSeat, IsCrew, IsCrewRan};
ghost use Rattle.script_crew.specs.Jobs.{AreJobs};
ghost use Rattle.script_crew.specs.Runs.{seat_numbers};
ghost use Rattle.script_crew.specs.Working.{HasRunAll};

use crate::filling::{equip, push_positions};
use crate::gathering::{Crew, run_rest};
use crate::job::{Job, JobRun};
use crate::leaving::leave_all;
use crate::position_rule::PositionQueue;
use crate::shift::work_all;
use crate::site::Site;
use collector_turns::Collector;
use heap_model::{Gate, Memory};
use heap_runs::{Held, HeldName, finish};
use heap_table::Closed;
use mutator_seat::Seat;
use slack_pace::Pace;
use std::alloc::Global;
use std::marker::Brand;
use std::sync::{Mutex, Wait};
use std::thread::Threads;

/// What a crew came to: the closed table, and the runs of the jobs.
#[derive(Drop)]
pub struct CrewRan {
    pub closed: Closed,
    pub runs: Vec<JobRun>,
}

/// Runs the jobs on the seats, each seat's worker in a thread of its own, and what is left of them then on the first seat.
fn run_jobs<N: HeldName + Send + Sync, G: Gate, R: Threads + Wait + Sync>(
    rt: &R,
    alloc: Global,
    held: &Mutex<Held<N>>,
    seats: Vec<Seat>,
    jobs: &[Job],
    gate: &G,
) -> Result<Crew, Memory>
    requires some { 0 < length jobs.now }
    requires jobs { AreJobs jobs.now }
    requires seat { 0 < vec_len seats }
    requires seats { vec_len seats ≤ 16 }
    requires numbered { seat_numbers seats.items ≡ range_with_len 0 (vec_len seats) }
    requires fresh { All (IsFreshSeat N.table N.heap) seats.items }
    ensures { IfOk result (HasRunAll jobs.now N.table N.heap seats.items) }
{
    let (queue, mut pass) = PositionQueue::ruled(alloc, jobs.len())?;
    let queue = &queue;
    push_positions(rt, queue, &mut pass, jobs.len() as u32);
    let workers = equip(alloc, queue, &mut pass, seats)?;
    let site = Site {
        alloc,
        queue,
        jobs,
        gate,
    };
    let done = work_all(rt, held, &site, workers)?;
    run_rest(rt, held, &site, &mut pass, done)
}

/// A crew whose table and collector its name tells.
fn run_named<N: HeldName + Send + Sync, G: Gate, R: Threads + Wait + Sync>(
    rt: &R,
    alloc: Global,
    seats: Vec<Seat>,
    collector: Collector,
    jobs: &[Job],
    pace: Box<dyn Pace>,
    gate: &G,
) -> Result<CrewRan, Memory>
    requires table { collector.holder.table ≡ N.table }
    requires heap { collector.holder.heap ≡ N.heap }
    requires before { collector.holder.known.collector.log ≡ N.before }
    requires crew { IsCrew seats.items collector }
    requires some { 0 < length jobs.now }
    requires jobs { AreJobs jobs.now }
    ensures { IfOk result (IsCrewRan jobs.now seats.items collector) }
{
    // What is true of every collector's heap is known from here on.
    let _ = collector.heap();
    let held = Mutex::new(Held::<N>::new(collector, pace));
    let Crew { seats, runs, .. } = run_jobs(rt, alloc, &held, seats, jobs, gate)?;
    let gone = leave_all(alloc, seats)?;
    let Held { collector, .. } = held.into_inner();
    let closed = finish(rt, alloc, collector, gone)?;
    Ok(CrewRan { closed, runs })
}

/// Runs the jobs on the seats of one table, and the collector's slack turns, which the pace asks for, beside them; no lock stands round a word of the heap. Each seat's worker, in a thread of
/// its own, takes a job from a queue of all of them, sets registers 1 to 15 to nil, makes the job's commands with a poll behind each, and takes the next. It passes the gate before each
/// command of a job. What is left once all workers have ended is run on seat 0. Then all seats leave and are folded in, a last cycle is made, and the table is closed. The only error is want
/// of memory. Which seat runs a job isn't said.
pub fn run_crew<G: Gate, R: Threads + Wait + Sync>(
    rt: &R,
    alloc: Global,
    seats: Vec<Seat>,
    collector: Collector,
    jobs: &[Job],
    pace: Box<dyn Pace>,
    gate: &G,
) -> Result<CrewRan, Memory>
    requires crew { IsCrew seats.items collector }
    requires some { 0 < length jobs.now }
    requires jobs { AreJobs jobs.now }
    ensures { IfOk result (IsCrewRan jobs.now seats.items collector) }
{
    run_named::<Brand, G, R>(rt, alloc, seats, collector, jobs, pace, gate)
}
