ghost use Rattle.std.specs.Prelude.{◌≡◌, ℕ, Err, IfOk};
ghost use Rattle.script_text.specs.declared.cause.LineFault.{LineFault as ALineFault};
ghost use Rattle.script_text.specs.declared.script.Form.TheVariants.{Play};
ghost use Rattle.reply_text.specs.History.{IsHistory};
ghost use Rattle.schism_program.specs.Planning.{FailsAsPlay, FindsIllegalPlay, PlansSpace};

use crate::fault::WorkFault;
use crate::verdict::history_of;
use reply_text::History;
use script_text::{Cause, Form};
use space_plan::{plan, render_plan};
use std::alloc::Global;

/// The history of a play that the input is.
fn play_history_of(alloc: Global, input: &[u8]) -> Result<History, WorkFault>
    ensures ok { IfOk result (IsHistory input.now) }
    ensures play { IfOk result (λ history. history.form ≡ Play) }
    ensures refused { (fault : ALineFault) → result ≡ Err (WorkFault.Refused fault) →
        FailsAsPlay input.now fault.line fault.cause }
    ensures legal { (line : ℕ) → result ≡ Err (WorkFault.NotLegal line) → ⊥ }
{
    let history = history_of(alloc, input)?;
    if history.form == Form::Run {
        return Err(WorkFault::Refused(Cause::NotPlay.at(1)));
    }
    Ok(history)
}

/// The text of the plan of the play that the input is a history of.
pub fn plan_text(alloc: Global, input: &[u8]) -> Result<Vec<u8>, WorkFault>
    ensures ok { IfOk result (λ text. PlansSpace input.now text.items) }
    ensures refused { (fault : ALineFault) → result ≡ Err (WorkFault.Refused fault) →
        FailsAsPlay input.now fault.line fault.cause }
    ensures not_legal { (line : ℕ) → result ≡ Err (WorkFault.NotLegal line) →
        FindsIllegalPlay input.now line }
{
    let history = play_history_of(alloc, input)?;
    let report = plan(alloc, &history)?;
    let text = render_plan(alloc, &history.preamble(), &report)?;
    Ok(text)
}
