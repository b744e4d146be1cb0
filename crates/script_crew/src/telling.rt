ghost use Rattle.std.specs.Prelude.{◌≡◌, [], ◌∷◌, ◌++◌, map, IfOk, OnOk};
ghost use Rattle.script_text.specs.Text.{text_of};
ghost use Rattle.script_crew.specs.Telling.{crew_lines, run_line, run_lines, told_in};

use crate::job::{Job, JobRun};
use heap_model::{Entry, Heap, Memory};
use reply_text::BriefCounts;
use script_text::{Preamble, push_heap_line, push_named, push_number};
use std::alloc::Global;

/// The entries of the run: a part of its seat's log.
fn told_in<'a>(logs: &'a [Vec<Entry>], run: &JobRun) -> &'a [Entry]
    ensures { result.now ≡ told_in (map (λ log. log.items) logs.now) run.now }
{
    let Some(log) = logs.get(usize::from(run.seat)) else {
        return &[];
    };
    let Some(told) = log.as_slice().get(run.from as usize..) else {
        return &[];
    };
    told.get(..run.to.saturating_sub(run.from) as usize)
        .unwrap_or(told)
}

/// Appends the line of a job's run, which made these entries, and its line feed.
#[tactic(auto, using(crate::proofs::TellingLines::spelling))]
fn push_run(text: &mut Vec<u8>, job: &Job, run: &JobRun, told: &[Entry]) -> Result<(), Memory>
    ensures { OnOk result (text.new.items ≡ text.old.items ++ (run_line job.now run.now told.now ++ 10 ∷ [])) }
{
    text.extend_from_slice(b"job")?;
    push_number(text, run.job.into())?;
    push_named(text, b"seat", run.seat.into())?;
    push_named(text, b"said", job.commands.len() as u64)?;
    push_named(text, b"refused", BriefCounts::of(told).refused)?;
    text.push(b'\n')?;
    Ok(())
}

/// Appends the line of each job's run, with its line feed.
fn push_runs(
    text: &mut Vec<u8>,
    jobs: &[Job],
    runs: &[JobRun],
    logs: &[Vec<Entry>],
) -> Result<(), Memory>
    ensures { OnOk result (text.new.items ≡ text.old.items ++ text_of (run_lines (map (λ log. log.items) logs.now) jobs.now runs.now)) }
{
    for (job, run) in jobs.iter().zip(runs) {
        push_run(text, job, run, told_in(logs, run))?;
    }
    Ok(())
}

/// What a crew came to, as a text: a line for the run of each job.
pub fn render_crew(
    alloc: Global,
    heap: Heap,
    jobs: &[Job],
    runs: &[JobRun],
    logs: &[Vec<Entry>],
) -> Result<Vec<u8>, Memory>
    ensures { IfOk result (λ text. text.items ≡ text_of (crew_lines heap (run_lines (map (λ log. log.items) logs.now) jobs.now runs.now))) }
{
    let mut text = Vec::from_slice(alloc, b"crew 1\n")?;
    push_heap_line(&mut text, &Preamble { version: 2, heap })?;
    push_runs(&mut text, jobs, runs, logs)?;
    text.extend_from_slice(b"end used 0\n")?;
    Ok(text)
}
