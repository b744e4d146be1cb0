ghost use Rattle.std.specs.Prelude.{◌≡◌, map, vec_len, All, IfOk};
ghost use Rattle.std.specs.List.{range_with_len};
ghost use Rattle.script_crew.specs.Jobs.{AreJobs};
ghost use Rattle.script_crew.specs.declared.shift.Task.TheVariants.{Jobs};
ghost use Rattle.script_crew.specs.Tasks.{EndsTask, IsTask};
ghost use Rattle.script_crew.specs.Working.{IsFresh, HasWorked, HaveEnded};

use crate::site::Site;
use crate::worker::{Worked, Worker, work};
use heap_model::{Gate, Memory};
use heap_record::{SlackWork, work_slack};
use heap_runs::{Held, HeldName};
use std::sync::{Mutex, Wait};
use std::thread::{Threads, map_vec};

/// What one thread of a crew does: it has the workers run jobs, in threads of their own, or it makes the collector's slack turns.
#[derive(Drop)]
pub enum Task {
    Jobs(Vec<Worker>),
    Slack,
}

/// Lets each worker run jobs in a thread of its own, and tells under the lock that all of them have ended. Where a thread can't be had the caller does its work.
fn work_each<N: HeldName + Send + Sync, G: Gate, R: Threads + Wait + Sync>(
    rt: &R,
    held: &Mutex<Held<N>>,
    site: &Site<G>,
    workers: Vec<Worker>,
) -> Result<Vec<Result<Worked, Memory>>, Memory>
    requires jobs { AreJobs site.now.jobs.now }
    requires fresh { All (IsFresh site.now.queue.now site.now.jobs.now N.table N.heap) workers.items }
    requires numbered { map (λ worker. worker.seat.number) workers.items ≡ range_with_len 0 (vec_len workers) }
    ensures { IfOk result (λ done. HaveEnded site.now.queue.now site.now.jobs.now N.table N.heap (map (λ worker. worker.seat) workers.items) done.items) }
{
    let done = map_vec(
        rt,
        workers,
        &|worker: Worker| -> Result<Worked, Memory>
            requires jobs { AreJobs site.now.jobs.now }
            requires fresh { IsFresh site.now.queue.now site.now.jobs.now N.table N.heap worker }
            ensures { IfOk result (HasWorked site.entry.now.queue.now site.entry.now.jobs.now N.table N.heap worker.seat) }
        { work(rt, held, site, worker) },
    );
    held.lock(rt).end();
    Ok(done?)
}

/// Does the task: of slack turns, until it is told under the lock that the workers have ended.
fn do_task<N: HeldName + Send + Sync, G: Gate, R: Threads + Wait + Sync>(
    rt: &R,
    held: &Mutex<Held<N>>,
    site: &Site<G>,
    task: Task,
) -> Result<Vec<Result<Worked, Memory>>, Memory>
    requires jobs { AreJobs site.now.jobs.now }
    requires task { IsTask site.now.queue.now site.now.jobs.now N.table N.heap task }
    ensures { IfOk result (λ done. EndsTask site.now.queue.now site.now.jobs.now N.table N.heap task done.items) }
{
    match task {
        Task::Jobs(workers) => work_each(rt, held, site, workers),
        Task::Slack => {
            work_slack(rt, held, &mut ())?;
            Ok(Vec::new(site.alloc))
        }
    }
}

/// Lets each worker run jobs in a thread of its own, while one more makes the collector's slack turns until all of these have ended, and tells what each came to, in their order. The slack
/// turns are the first task: where no thread can be had for them the caller comes to them last, once the workers have ended.
pub fn work_all<N: HeldName + Send + Sync, G: Gate, R: Threads + Wait + Sync>(
    rt: &R,
    held: &Mutex<Held<N>>,
    site: &Site<G>,
    workers: Vec<Worker>,
) -> Result<Vec<Result<Worked, Memory>>, Memory>
    requires jobs { AreJobs site.now.jobs.now }
    requires task { IsTask site.now.queue.now site.now.jobs.now N.table N.heap (Jobs workers) }
    ensures { IfOk result (λ done. HaveEnded site.now.queue.now site.now.jobs.now N.table N.heap (map (λ worker. worker.seat) workers.items) done.items) }
{
    let mut tasks = Vec::new(site.alloc);
    tasks.push(Task::Slack)?;
    tasks.push(Task::Jobs(workers))?;
    let mut both = map_vec(
        rt,
        tasks,
        &|task: Task| -> Result<Vec<Result<Worked, Memory>>, Memory>
            requires jobs { AreJobs site.now.jobs.now }
            requires task { IsTask site.now.queue.now site.now.jobs.now N.table N.heap task }
            ensures { IfOk result (λ done. EndsTask site.entry.now.queue.now site.entry.now.jobs.now N.table N.heap task done.items) }
        { do_task(rt, held, site, task) },
    )?;
    let Some(done) = both.pop() else {
        unreachable!()
    };
    if let Some(slack) = both.pop() {
        slack?;
    }
    done
}
