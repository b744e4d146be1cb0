ghost use Rattle.std.specs.Prelude.{◌≡◌, map, All, IfOk};
ghost use Rattle.heap_runs.specs.SeatWork.{IsOfTable};
ghost use Rattle.heap_queue.specs.Running.{script_at};
ghost use Rattle.heap_queue.specs.declared.workers.Task.TheVariants.{Serve};
ghost use Rattle.heap_queue.specs.Tasks.{IsTask, EndsTask};
ghost use Rattle.heap_queue.specs.Working.{MayServe, IsReadyToServe, HasWorked, HaveWorked};

use crate::leaving::leave;
use crate::queue_command::QueueCommand;
use crate::serving::serve_script;
use crate::table_seat::TableSeat;
use heap_model::{Gate, Memory};
use heap_record::{SlackWork, work_slack};
use heap_runs::{Held, HeldName};
use mutator_seat::Seat;
use std::alloc::Global;
use std::sync::{Mutex, Wait};
use std::thread::{Threads, map_vec};

/// What one thread of a run does: it has the seats served, each in a thread of its own, or it makes the collector's slack turns.
#[derive(Drop)]
pub(crate) enum Task {
    Serve(Vec<Seat>),
    Slack,
}

/// Serves the script on the seat, which then leaves.
fn serve_whole<N: HeldName, G: Gate, R: Wait>(
    rt: &R,
    seat: Seat,
    script: &[QueueCommand],
    gate: &G,
) -> Result<Seat, Memory>
    requires of_table { IsOfTable N.table N.heap seat }
    requires may { MayServe script.now seat }
    ensures { IfOk result (HasWorked N.table N.heap seat.number script.now) }
{
    let number = seat.number();
    let mut seat = TableSeat::<N>::new(seat);
    serve_script(rt, &mut seat, number, script, gate)?;
    let mut seat = seat.into_seat();
    leave(&mut seat)?;
    Ok(seat)
}

/// Does the work of the seat, and tells under the lock that its worker has ended, also where memory is wanting.
fn work<N: HeldName, G: Gate, R: Wait>(
    rt: &R,
    held: &Mutex<Held<N>>,
    seat: Seat,
    script: &[QueueCommand],
    gate: &G,
) -> Result<Seat, Memory>
    requires of_table { IsOfTable N.table N.heap seat }
    requires may { MayServe script.now seat }
    ensures { IfOk result (HasWorked N.table N.heap seat.number script.now) }
{
    let done = serve_whole::<N, G, R>(rt, seat, script, gate);
    held.lock(rt).end_one();
    done
}

/// The seats of the workers that came to their ends, if memory was wanting to none.
fn each_seat(alloc: Global, done: Vec<Result<Seat, Memory>>) -> Result<Vec<Seat>, Memory>
    ensures { IfOk result (λ back. done.items ≡ map (λ seat. Ok seat) back.items) }
{
    let mut back = Vec::new(alloc);
    for seat in done {
        back.push(seat?)?;
    }
    Ok(back)
}

/// Lets each seat serve its script in a thread of its own and leave, and tells under the lock that all of them have ended. Where a thread can't be had the caller does its work.
fn serve_seats<N: HeldName + Send + Sync, G: Gate, R: Threads + Wait + Sync>(
    rt: &R,
    alloc: Global,
    held: &Mutex<Held<N>>,
    seats: Vec<Seat>,
    scripts: &[Vec<QueueCommand>],
    gate: &G,
) -> Result<Vec<Seat>, Memory>
    requires { All (IsReadyToServe N.table N.heap (map (λ script. script.items) scripts.now)) seats.items }
    ensures { IfOk result (λ done. HaveWorked N.table N.heap (map (λ script. script.items) scripts.now) seats.items done.items) }
{
    let done = map_vec(
        rt,
        seats,
        &|seat: Seat| -> Result<Seat, Memory>
            requires { IsReadyToServe N.table N.heap (map (λ script. script.items) scripts.now) seat }
            ensures { IfOk result (HasWorked N.table N.heap seat.number (script_at (map (λ script. script.items) scripts.entry.now) seat.number)) }
        {
            let number = seat.number() as usize;
            work(rt, held, seat, scripts[number].as_slice(), gate)
        },
    );
    held.lock(rt).end();
    each_seat(alloc, done?)
}

/// Does the task: of slack turns, until it is told under the lock that the workers have ended.
fn do_task<N: HeldName + Send + Sync, G: Gate, R: Threads + Wait + Sync>(
    rt: &R,
    alloc: Global,
    held: &Mutex<Held<N>>,
    task: Task,
    scripts: &[Vec<QueueCommand>],
    gate: &G,
) -> Result<Vec<Seat>, Memory>
    requires { IsTask N.table N.heap (map (λ script. script.items) scripts.now) task }
    ensures { IfOk result (λ done. EndsTask N.table N.heap (map (λ script. script.items) scripts.now) task done.items) }
{
    match task {
        Task::Serve(seats) => serve_seats(rt, alloc, held, seats, scripts, gate),
        Task::Slack => {
            work_slack(rt, held, &mut ())?;
            Ok(Vec::new(alloc))
        }
    }
}

/// Lets each seat serve its script and leave, while one more thread makes the collector's slack turns until all of these have ended, and hands the seats back in their order. The slack turns
/// are the first task: where no thread can be had for them the caller comes to them last, once the workers have ended.
pub(crate) fn work_all<N: HeldName + Send + Sync, G: Gate, R: Threads + Wait + Sync>(
    rt: &R,
    alloc: Global,
    held: &Mutex<Held<N>>,
    seats: Vec<Seat>,
    scripts: &[Vec<QueueCommand>],
    gate: &G,
) -> Result<Vec<Seat>, Memory>
    requires { IsTask N.table N.heap (map (λ script. script.items) scripts.now) (Serve seats) }
    ensures { IfOk result (λ done. HaveWorked N.table N.heap (map (λ script. script.items) scripts.now) seats.items done.items) }
{
    let mut tasks = Vec::new(alloc);
    tasks.push(Task::Slack)?;
    tasks.push(Task::Serve(seats))?;
    let mut both = map_vec(
        rt,
        tasks,
        &|task: Task| -> Result<Vec<Seat>, Memory>
            requires { IsTask N.table N.heap (map (λ script. script.items) scripts.now) task }
            ensures { IfOk result (λ done. EndsTask N.table N.heap (map (λ script. script.items) scripts.entry.now) task done.items) }
        { do_task(rt, alloc, held, task, scripts, gate) },
    )?;
    let Some(done) = both.pop() else {
        unreachable!()
    };
    if let Some(slack) = both.pop() {
        slack?;
    }
    done
}
