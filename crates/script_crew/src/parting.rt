ghost use Rattle.std.specs.Prelude.{◌≡◌, ◌<◌, cond, [], ◌∷◌, ◌++◌, map, vec_len, All, IfOk, OnOk};
ghost use Rattle.script_crew.specs.CrewText.{IsOfCrew};
ghost use Rattle.script_crew.specs.Jobs.{AreJobs};
ghost use Rattle.script_crew.specs.Parting.{AreSlots, HasJobNumber, has_commands, jobs_told, told_by, with_line};

use crate::crew_grammar::JOB_LIMIT;
use crate::crew_script::CrewScript;
use crate::job::Job;
use crate::job_line::JobLine;
use heap_model::{Command, Memory};
use std::alloc::Global;

/// A list for each number of a job, with no command in it.
fn empty_slots(alloc: Global) -> Result<Vec<Vec<Command>>, Memory>
    ensures { IfOk result (λ slots. AreSlots [] (map (λ slot. slot.items) slots.items)) }
{
    let mut slots = Vec::new(alloc);
    for _ in 0..JOB_LIMIT {
        slots.push(Vec::new(alloc))?;
    }
    Ok(slots)
}

/// Puts the line's command behind those of its job.
fn add(slots: &mut Vec<Vec<Command>>, line: &JobLine) -> Result<(), Memory>
    requires { line.now.job < vec_len slots.old }
    ensures { OnOk result (map (λ slot. slot.items) slots.new.items ≡ with_line (map (λ slot. slot.items) slots.old.items) line.now) }
{
    if let Some(slot) = slots.get_mut(usize::from(line.job)) {
        slot.push(line.command)?;
    }
    Ok(())
}

/// The commands of the lines, parted by the numbers of their jobs.
fn slots_of(alloc: Global, lines: &[JobLine]) -> Result<Vec<Vec<Command>>, Memory>
    requires { All HasJobNumber lines.now }
    ensures { IfOk result (λ slots. AreSlots lines.now (map (λ slot. slot.items) slots.items)) }
{
    let mut slots = empty_slots(alloc)?;
    for line in lines {
        add(&mut slots, line)?;
    }
    Ok(slots)
}

/// Appends the job of this number, if it has a command.
fn push_job(jobs: &mut Vec<Job>, number: u32, commands: Vec<Command>) -> Result<(), Memory>
    ensures { OnOk result (map told_by jobs.new.items ≡
        map told_by jobs.old.items ++ cond (has_commands (number, commands.items)) ((number, commands.items) ∷ []) []) }
{
    if !commands.is_empty() {
        jobs.push(Job { number, commands })?;
    }
    Ok(())
}

/// The jobs that the lines of a crew's text tell, in the order of their numbers: each has the commands of its lines, in their order.
pub fn jobs_of(alloc: Global, crew: &CrewScript) -> Result<Vec<Job>, Memory>
    requires { IsOfCrew crew.now }
    ensures told { IfOk result (λ jobs. map told_by jobs.items ≡ jobs_told crew.now.lines) }
    ensures jobs { IfOk result (λ jobs. AreJobs jobs.items) }
{
    let mut jobs = Vec::new(alloc);
    let mut number = 0;
    for commands in slots_of(alloc, crew.lines.as_slice())? {
        push_job(&mut jobs, number, commands)?;
        number += 1;
    }
    Ok(jobs)
}
