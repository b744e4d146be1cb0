ghost use Rattle.std.specs.Prelude.{◌≡◌, ◌-◌, ◌<◌, [], List, vec_len, IfOk};
ghost use Rattle.crossbeam_queue.specs.Passes.{view, IsPassOf};
ghost use Rattle.heap_table.specs.SeatHeld.{SeatHeld};
ghost use Rattle.script_crew.specs.Jobs.{positions_of, AreJobs};
ghost use Rattle.script_crew.specs.Positions.{all_shares, tally};
ghost use Rattle.script_crew.specs.Working.{HaveEnded, HaveEndedOnSome, HaveRun, HasRunAll};

use crate::job::JobRun;
use crate::position_rule::{PositionPass, Sharing};
use crate::site::Site;
use crate::worker::{Worked, run_popped};
use heap_model::{Gate, Memory};
use heap_runs::{Held, HeldName};
use mutator_seat::Seat;
use std::sync::{Mutex, Wait};

/// The seats of a crew, how many commands of jobs each has begun, and the runs so far.
#[derive(Drop)]
pub struct Crew {
    pub seats: Vec<Seat>,
    pub begun: Vec<u32>,
    pub runs: Vec<JobRun>,
}

/// Takes in the workers' passes, and lists their seats, and their runs one worker behind the other.
fn join_all<N: HeldName, G: Gate>(
    site: &Site<G>,
    pass: &mut PositionPass,
    done: Vec<Result<Worked, Memory>>,
) -> Result<Crew, Memory>
    requires queue { IsPassOf site.now.queue.now pass.old }
    requires some { 0 < (view pass.old).shares }
    requires popped { (view pass.old).popped ≡ [] }
    requires known { (view pass.old).known ≡ positions_of site.now.jobs.now }
    requires ended { HaveEndedOnSome site.now.queue.now site.now.jobs.now N.table N.heap done.items }
    ensures queue { IsPassOf site.now.queue.now pass.new }
    ensures joined { (olds : List SeatHeld) → HaveEnded site.now.queue.now site.now.jobs.now N.table N.heap olds done.items →
        IfOk result (λ crew. HaveRun site.now.jobs.now N.table N.heap olds (view pass.old) (view pass.new) crew) }
{
    let mut crew = Crew {
        seats: Vec::new(site.alloc),
        begun: Vec::new(site.alloc),
        runs: Vec::new(site.alloc),
    };
    for one in done {
        let Worked {
            worker,
            mut runs,
            begun,
        } = one?;
        site.queue.absorb::<Sharing>(pass, worker.pass);
        crew.seats.push(worker.seat)?;
        crew.begun.push(begun)?;
        crew.runs.append(&mut runs)?;
    }
    Ok(crew)
}

/// Takes in what the workers came to, runs on the first seat what is left of the jobs, and puts the runs in the order of the jobs.
pub fn run_rest<N: HeldName, G: Gate, R: Wait>(
    rt: &R,
    held: &Mutex<Held<N>>,
    site: &Site<G>,
    pass: &mut PositionPass,
    done: Vec<Result<Worked, Memory>>,
) -> Result<Crew, Memory>
    requires jobs { AreJobs site.now.jobs.now }
    requires some { 0 < vec_len done }
    requires queue { IsPassOf site.now.queue.now pass.old }
    requires pushed { view pass.old ≡ tally (all_shares - vec_len done) (positions_of site.now.jobs.now) [] (positions_of site.now.jobs.now) }
    requires shares { vec_len done < all_shares }
    requires ended { HaveEndedOnSome site.now.queue.now site.now.jobs.now N.table N.heap done.items }
    ensures { (olds : List SeatHeld) → HaveEnded site.now.queue.now site.now.jobs.now N.table N.heap olds done.items →
        IfOk result (HasRunAll site.now.jobs.now N.table N.heap olds) }
{
    let mut crew = join_all::<N, G>(site, pass, done)?;
    let mut begun = crew.begun.first().copied().unwrap_or(0);
    let mut rest = run_popped(rt, held, site, pass, &mut crew.seats[0], &mut begun)?;
    crew.runs.append(&mut rest)?;
    crew.runs.sort_unstable_by_key(|run: &JobRun| run.job);
    Ok(crew)
}
