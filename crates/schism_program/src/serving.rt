ghost use Rattle.std.specs.Prelude.{◌≡◌, ℕ, None, Err, IfOk, IsSome, is_some};
ghost use Rattle.std.specs.List.{AllByRecursion};
ghost use Rattle.form_words.specs.Works.{IsWork};
ghost use Rattle.script_text.specs.declared.cause.LineFault.{LineFault as ALineFault};
ghost use Rattle.script_text.specs.declared.script.Form.TheVariants.{Play};
ghost use Rattle.script_text.specs.Grammar.{IsScript};
ghost use Rattle.script_text.specs.Preamble.{usual_board};
ghost use Rattle.script_text.specs.Writing.{IsOfForm};
ghost use Rattle.script_text.specs.Text.{text_of};
ghost use Rattle.reply_text.specs.Written.{HasText};
ghost use Rattle.schism_program.specs.Serving.{told_lines, FailsAsScript, IsPlayBy, Plays};
ghost use Rattle.schism_program.specs.Works.{FailsAt, IsIllegalAt, LeavesTable, MakesText};

use crate::crewing::run_crew_text;
use crate::fault::WorkFault;
use crate::made::Made;
use crate::making::made_script_text;
use crate::migrating::migrated_text;
use crate::planning::plan_text;
use crate::queuing::run_queue_text;
use crate::running::run_text;
use crate::table_run::run_on_table;
use crate::verdict::verdict;
use form_words::{PaceName, Work};
use heap_model::{Gate, Memory};
use heap_runs::{MachineHeap, play, play_pressed};
use reply_text::{History, render_brief, render_history};
use script_text::{Form, Script, read_script};
use slack_pace::{Pace, Paces};
use std::alloc::Global;
use std::sync::Wait;
use std::thread::Threads;

/// The script that the input is, in this form.
pub fn script_of(alloc: Global, input: &[u8], form: Form) -> Result<Script, WorkFault>
    ensures ok { IfOk result (IsScript form input.now) }
    ensures form { IfOk result (IsOfForm form) }
    ensures refused { (fault : ALineFault) → result ≡ Err (WorkFault.Refused fault) →
        FailsAsScript form input.now fault.line fault.cause }
    ensures legal { (line : ℕ) → result ≡ Err (WorkFault.NotLegal line) → ⊥ }
{
    let script = read_script(alloc, input, form)?;
    Ok(script)
}

/// The text that tells the history: all of it, or its brief.
fn told_text(alloc: Global, history: &History, brief: bool) -> Result<Vec<u8>, Memory>
    requires play { history.now.form ≡ Play }
    requires marked { IsSome history.now.mark }
    requires spelled { AllByRecursion (HasText history.now.version) history.now.entries }
    requires board { history.now.version ≡ 1 → history.now.heap.board ≡ usual_board }
    ensures { IfOk result (λ text. text.items ≡ text_of (told_lines brief history.now)) }
{
    if brief {
        render_brief(alloc, history)
    } else {
        render_history(alloc, history)
    }
}

/// The history of a play of the script. Where it presses, seats collect where they are refused.
fn played(
    alloc: Global,
    script: &Script,
    pace: Option<Box<dyn Pace>>,
    press: bool,
) -> Result<History, Memory>
    requires form { IsOfForm Play script.now }
    ensures played { IfOk result (IsPlayBy press (is_some pace) script.now) }
    ensures play { IfOk result (λ history. history.form ≡ Play) }
    ensures marked { IfOk result (λ history. IsSome history.mark) }
    ensures spelled { IfOk result (λ history. AllByRecursion (HasText history.version) history.entries) }
    ensures board { IfOk result (λ history. history.version ≡ 1 → history.heap.board ≡ usual_board) }
{
    let whole = MachineHeap::make(alloc, script.heap)?;
    if press {
        play_pressed(whole, script.heap, script, pace)
    } else {
        play(whole, script.heap, script, pace)
    }
}

/// The text that tells the play of the script that the input is. Input and script are dropped as soon as they were used, so that they don't stand beside the text.
fn played_text(
    alloc: Global,
    input: Vec<u8>,
    pace: Option<Box<dyn Pace>>,
    brief: bool,
    press: bool,
) -> Result<Vec<u8>, WorkFault>
    ensures ok { IfOk result (λ text. Plays press (is_some pace) brief input.items text.items) }
    ensures refused { (fault : ALineFault) → result ≡ Err (WorkFault.Refused fault) →
        FailsAsScript Play input.items fault.line fault.cause }
    ensures legal { (line : ℕ) → result ≡ Err (WorkFault.NotLegal line) → ⊥ }
{
    let script = script_of(alloc, &input, Form::Play)?;
    drop(input);
    let history = played(alloc, &script, pace, press)?;
    drop(script);
    let text = told_text(alloc, &history, brief)?;
    Ok(text)
}

/// The pace that the words name.
fn chosen(paces: Paces, name: PaceName) -> Box<dyn Pace>
    ensures steady { name ≡ PaceName.Steady → result ≡ paces.steady }
    ensures debt { name ≡ PaceName.Debt → result ≡ paces.debt }
{
    match name {
        PaceName::Steady => paces.steady,
        PaceName::Debt => paces.debt,
    }
}

/// What a work comes to of which nothing is left but its text.
fn text_alone(text: Vec<u8>) -> Made
    ensures text { result.text.items ≡ text.items }
    ensures closed { result.closed ≡ None }
{
    Made { text, closed: None }
}

/// The text that the work makes of the input, and the table that it closes where it is a run without the lock. Only a run may wait, and only its work is handed the runtime.
pub fn made_work<G: Gate, R: Threads + Wait + Sync>(
    rt: &R,
    alloc: Global,
    work: Work,
    input: Vec<u8>,
    paces: Paces,
    gate: &G,
) -> Result<Made, WorkFault>
    requires { IsWork work }
    ensures ok { IfOk result (λ made. MakesText work input.items made.text.items) }
    ensures closed { IfOk result (λ made. LeavesTable work input.items made.text.items made.closed) }
    ensures refused { (fault : ALineFault) → result ≡ Err (WorkFault.Refused fault) →
        FailsAt work input.items fault.line fault.cause }
    ensures not_legal { (line : ℕ) → result ≡ Err (WorkFault.NotLegal line) →
        IsIllegalAt work input.items line }
{
    match work {
        Work::Play {
            pace: None,
            brief,
            press,
        } => {
            let text = played_text(alloc, input, None, brief, press)?;
            Ok(text_alone(text))
        }
        Work::Play {
            pace: Some(pace),
            brief,
            press,
        } => {
            let text = played_text(alloc, input, Some(chosen(paces, pace)), brief, press)?;
            Ok(text_alone(text))
        }
        Work::Run {
            locked: false,
            pace,
            patience,
        } => {
            let run = run_on_table(rt, alloc, &input, chosen(paces, pace), patience, gate)?;
            Ok(Made {
                text: run.text,
                closed: Some(run.closed),
            })
        }
        Work::Run {
            locked: true,
            pace,
            patience,
        } => {
            let text = run_text(rt, alloc, &input, chosen(paces, pace), patience, gate)?;
            Ok(text_alone(text))
        }
        Work::Check => {
            let text = verdict(alloc, &input)?;
            Ok(text_alone(text))
        }
        Work::Plan => {
            let text = plan_text(alloc, &input)?;
            Ok(text_alone(text))
        }
        Work::Make {
            start,
            seats,
            lines,
        } => {
            let text = made_script_text(alloc, start, seats, lines)?;
            Ok(text_alone(text))
        }
        Work::Migrate(kind) => {
            let text = migrated_text(alloc, kind, input)?;
            Ok(text_alone(text))
        }
        Work::Crew { history } => run_crew_text(rt, alloc, &input, history, paces.steady, gate),
        Work::Queue => run_queue_text(rt, alloc, &input, paces.steady, gate),
    }
}
