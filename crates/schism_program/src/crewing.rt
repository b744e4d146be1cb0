ghost use Rattle.std.specs.Prelude.{◌≡◌, ◌<◌, ℕ, true, length, Err, IfOk};
ghost use Rattle.heap_model.specs.Heap.{IsHeap};
ghost use Rattle.heap_runs.specs.Finishing.{EndsUnused};
ghost use Rattle.log_merge.specs.FewSets.{HaveFewSets};
ghost use Rattle.script_text.specs.declared.cause.LineFault.{LineFault as ALineFault};
ghost use Rattle.script_crew.specs.CrewText.{IsCrewText, IsOfCrew};
ghost use Rattle.script_crew.specs.Jobs.{AreJobs};
ghost use Rattle.schism_program.specs.Crewing.{FailsAsCrew, HasRun, RunsAll, RunsCrew, RunsNone, TellsCrew, TellsLogs};

use crate::fault::WorkFault;
use crate::made::Made;
use crate::table_run::{ToldRun, history_of, told_run};
use collector_turns::Collector;
use core_machine::Log;
use heap_model::{Gate, Heap, Memory};
use heap_runs::seats_of;
use heap_table::{Closed, HeapTable};
use log_merge::merge;
use reply_text::render_history;
use script_crew::{CrewRan, CrewScript, Job, jobs_of, read_crew, render_crew, run_crew};
use script_text::{Preamble, Script, Sequence};
use slack_pace::Pace;
use std::alloc::Global;
use std::sync::Wait;
use std::thread::Threads;

/// How often a seat of a run without lines would find another one behind before its collect waits.
const USUAL_PATIENCE: u32 = 1_000;

/// What the input tells as a crew's text.
fn crew_of(alloc: Global, input: &[u8]) -> Result<CrewScript, WorkFault>
    ensures ok { IfOk result (IsCrewText input.now) }
    ensures of_crew { IfOk result IsOfCrew }
    ensures refused { (fault : ALineFault) → result ≡ Err (WorkFault.Refused fault) →
        FailsAsCrew input.now fault.line fault.cause }
    ensures legal { (line : ℕ) → result ≡ Err (WorkFault.NotLegal line) → ⊥ }
{
    let crew = read_crew(alloc, input)?;
    Ok(crew)
}

/// The text that tells the logs of a closed table as one history.
fn merged_text(alloc: Global, heap: Heap, closed: &Closed) -> Result<Vec<u8>, Memory>
    requires heap { IsHeap heap }
    requires of_heap { closed.now.heap ≡ heap }
    requires unused { EndsUnused closed.now }
    requires few { HaveFewSets closed.now.logs }
    ensures { IfOk result (λ text. TellsLogs heap text.items closed.now) }
{
    let entries = merge(alloc, closed.logs(), heap)?;
    let front = Preamble { version: 2, heap };
    render_history(alloc, &history_of(front, entries))
}

/// Opens a table and runs the jobs on its seats.
fn ran_jobs<G: Gate, R: Threads + Wait + Sync>(
    rt: &R,
    alloc: Global,
    heap: Heap,
    jobs: &[Job],
    pace: Box<dyn Pace>,
    gate: &G,
) -> Result<CrewRan, Memory>
    requires heap { IsHeap heap }
    requires some { 0 < length jobs.now }
    requires jobs { AreJobs jobs.now }
    ensures { IfOk result (HasRun heap jobs.now) }
{
    let (holders, collector) = HeapTable::make::<Log, Log>(alloc, heap)?;
    let seats = seats_of(alloc, holders)?;
    run_crew(
        rt,
        alloc,
        seats,
        Collector::make(collector),
        jobs,
        pace,
        gate,
    )
}

/// The text that tells what the crew came to.
fn crew_text(
    alloc: Global,
    heap: Heap,
    jobs: &[Job],
    ran: &CrewRan,
    history: bool,
) -> Result<Vec<u8>, Memory>
    requires heap { IsHeap heap }
    requires ran { HasRun heap jobs.now ran.now }
    ensures { IfOk result (λ text. TellsCrew history heap jobs.now ran.now text.items) }
{
    if history {
        merged_text(alloc, heap, &ran.closed)
    } else {
        render_crew(alloc, heap, jobs, ran.runs.as_slice(), ran.closed.logs())
    }
}

/// A run of the script of this heap that has no lines, and the history that tells it.
fn lineless_run<G: Gate, R: Threads + Wait + Sync>(
    rt: &R,
    alloc: Global,
    heap: Heap,
    pace: Box<dyn Pace>,
    gate: &G,
) -> Result<Made, Memory>
    requires { IsHeap heap }
    ensures { IfOk result (λ made. RunsNone true heap made.text.items made.closed) }
{
    let script = Script {
        version: 2,
        heap,
        lines: Sequence::new(alloc),
    };
    let told = told_run(rt, alloc, &script, pace, USUAL_PATIENCE, gate)?;
    let text = render_history(alloc, &told.history)?;
    let ToldRun { closed, .. } = told;
    Ok(Made {
        text,
        closed: Some(closed),
    })
}

/// What a crew without jobs comes to.
fn run_none<G: Gate, R: Threads + Wait + Sync>(
    rt: &R,
    alloc: Global,
    heap: Heap,
    history: bool,
    pace: Box<dyn Pace>,
    gate: &G,
) -> Result<Made, Memory>
    requires { IsHeap heap }
    ensures { IfOk result (λ made. RunsNone history heap made.text.items made.closed) }
{
    if history {
        return lineless_run(rt, alloc, heap, pace, gate);
    }
    let text = render_crew(alloc, heap, &[], &[], &[])?;
    Ok(Made { text, closed: None })
}

/// Runs the jobs, and tells what they came to.
fn run_all<G: Gate, R: Threads + Wait + Sync>(
    rt: &R,
    alloc: Global,
    heap: Heap,
    jobs: &[Job],
    history: bool,
    pace: Box<dyn Pace>,
    gate: &G,
) -> Result<Made, Memory>
    requires heap { IsHeap heap }
    requires jobs { AreJobs jobs.now }
    ensures { IfOk result (λ made. RunsAll history heap jobs.now made.text.items made.closed) }
{
    if jobs.is_empty() {
        return run_none(rt, alloc, heap, history, pace, gate);
    }
    let ran = ran_jobs(rt, alloc, heap, jobs, pace, gate)?;
    let text = crew_text(alloc, heap, jobs, &ran, history)?;
    let CrewRan { closed, .. } = ran;
    Ok(Made {
        text,
        closed: Some(closed),
    })
}

/// Runs the jobs of the crew's text that the input is, and tells each job's run, or the history of the whole.
pub fn run_crew_text<G: Gate, R: Threads + Wait + Sync>(
    rt: &R,
    alloc: Global,
    input: &[u8],
    history: bool,
    pace: Box<dyn Pace>,
    gate: &G,
) -> Result<Made, WorkFault>
    ensures ok { IfOk result (λ made. RunsCrew history input.now made.text.items made.closed) }
    ensures refused { (fault : ALineFault) → result ≡ Err (WorkFault.Refused fault) →
        FailsAsCrew input.now fault.line fault.cause }
    ensures legal { (line : ℕ) → result ≡ Err (WorkFault.NotLegal line) → ⊥ }
{
    let crew = crew_of(alloc, input)?;
    let jobs = jobs_of(alloc, &crew)?;
    let made = run_all(rt, alloc, crew.heap, jobs.as_slice(), history, pace, gate)?;
    Ok(made)
}
