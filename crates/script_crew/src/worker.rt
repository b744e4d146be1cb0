ghost use Rattle.std.specs.Prelude.{◌≡◌, ◌<◌, IfOk, OnOk};
ghost use Rattle.crossbeam_queue.specs.Fifo.{Held as HeldItems};
ghost use Rattle.crossbeam_queue.specs.Passes.{view, IsPassOf};
ghost use Rattle.script_crew.specs.Jobs.{positions_of, AreJobs};
ghost use Rattle.script_crew.specs.Positions.{Settles};
ghost use Rattle.script_crew.specs.Working.{IsAtWork, HasRun, IsFresh, HasWorked};

use crate::job::JobRun;
use crate::job_run::run_job;
use crate::position_rule::{Popping, PositionPass};
use crate::site::Site;
use heap_model::{Gate, Memory};
use heap_runs::{Held, HeldName};
use mutator_seat::Seat;
use std::sync::{Mutex, Wait};

/// A seat and a pass of the queue: what a worker takes along and hands back.
#[derive(Drop)]
pub struct Worker {
    pub seat: Seat,
    pub pass: PositionPass,
}

/// What a worker hands back: itself, its runs in the order in which it made them, and how many commands of jobs its seat has begun.
#[derive(Drop)]
pub struct Worked {
    pub worker: Worker,
    pub runs: Vec<JobRun>,
    pub begun: u32,
}

/// Runs on the seat each job whose position the pass pops, until the queue answers that it is empty.
pub fn run_popped<N: HeldName, G: Gate, R: Wait>(
    rt: &R,
    held: &Mutex<Held<N>>,
    site: &Site<G>,
    pass: &mut PositionPass,
    seat: &mut Seat,
    begun: &mut u32,
) -> Result<Vec<JobRun>, Memory>
    requires queue { IsPassOf site.now.queue.now pass.old }
    requires shares { 0 < (view pass.old).shares }
    requires known { (view pass.old).known ≡ positions_of site.now.jobs.now }
    requires jobs { AreJobs site.now.jobs.now }
    requires seat { IsAtWork site.now.jobs.now N.table N.heap (view pass.old).popped seat.old }
    ensures queue { IsPassOf site.now.queue.now pass.new }
    ensures ran { IfOk result (λ runs. HasRun site.now.jobs.now (view pass.old) (view pass.new) seat.old seat.new runs.items) }
    ensures empty { OnOk result (HeldItems 0 (Settles (view pass.new))) }
{
    let mut runs = Vec::new(site.alloc);
    for _ in rt.forever() {
        match site.queue.pop_as::<Popping, R>(rt, pass) {
            Some(position) => {
                let job = &site.jobs[position as usize];
                let run = run_job(rt, held, seat, job, site.gate, begun)?;
                runs.push(run)?;
            }
            None => return Ok(runs),
        }
    }
    unreachable!()
}

/// Runs each job whose position the worker pops, until the queue is empty.
fn run_all<N: HeldName, G: Gate, R: Wait>(
    rt: &R,
    held: &Mutex<Held<N>>,
    site: &Site<G>,
    mut worker: Worker,
) -> Result<Worked, Memory>
    requires jobs { AreJobs site.now.jobs.now }
    requires fresh { IsFresh site.now.queue.now site.now.jobs.now N.table N.heap worker }
    ensures { IfOk result (HasWorked site.now.queue.now site.now.jobs.now N.table N.heap worker.seat) }
{
    let mut begun = 0;
    let runs = run_popped(
        rt,
        held,
        site,
        &mut worker.pass,
        &mut worker.seat,
        &mut begun,
    )?;
    Ok(Worked {
        worker,
        runs,
        begun,
    })
}

/// Does the work of the worker, and tells under the lock that it has ended, also where memory is wanting.
pub fn work<N: HeldName, G: Gate, R: Wait>(
    rt: &R,
    held: &Mutex<Held<N>>,
    site: &Site<G>,
    worker: Worker,
) -> Result<Worked, Memory>
    requires jobs { AreJobs site.now.jobs.now }
    requires fresh { IsFresh site.now.queue.now site.now.jobs.now N.table N.heap worker }
    ensures { IfOk result (HasWorked site.now.queue.now site.now.jobs.now N.table N.heap worker.seat) }
{
    let worked = run_all(rt, held, site, worker);
    held.lock(rt).end_one();
    worked
}
