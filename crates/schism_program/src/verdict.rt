ghost use Rattle.std.specs.Prelude.{◌≡◌, ◌++◌, ◌∷◌, [], ℕ, length, Err, IfOk, Some};
ghost use Rattle.std.specs.List.{AllByRecursion};
ghost use Rattle.script_text.specs.declared.cause.LineFault.{LineFault as ALineFault};
ghost use Rattle.reply_text.specs.read.Faults.{first_history_fault};
ghost use Rattle.reply_text.specs.History.{IsHistory};
ghost use Rattle.reply_text.specs.Written.{HasText};
ghost use Rattle.schism_program.specs.Verdict.{FindsIllegal, FindsLegal, verdict_line};

use crate::fault::WorkFault;
use heap_model::Memory;
use log_merge::check;
use reply_text::{History, read_history};
use script_text::push_number;
use std::alloc::Global;

/// The history that the input is.
pub fn history_of(alloc: Global, input: &[u8]) -> Result<History, WorkFault>
    ensures ok { IfOk result (IsHistory input.now) }
    ensures spelled { IfOk result (λ history. AllByRecursion (HasText history.version) history.entries) }
    ensures refused { (fault : ALineFault) → result ≡ Err (WorkFault.Refused fault) →
        first_history_fault input.now ≡ Some fault }
    ensures legal { (line : ℕ) → result ≡ Err (WorkFault.NotLegal line) → ⊥ }
{
    let history = read_history(alloc, input)?;
    Ok(history)
}

/// The line that says of how many entries a legal history is.
fn legal_text(alloc: Global, count: u64) -> Result<Vec<u8>, Memory>
    ensures { IfOk result (λ text. text.items ≡ verdict_line count ++ 10 ∷ []) }
{
    let mut text = Vec::new(alloc);
    text.extend_from_slice(b"legal")?;
    push_number(&mut text, count)?;
    text.push(b'\n')?;
    Ok(text)
}

/// What a check says of the input, where it is a legal history.
pub fn verdict(alloc: Global, input: &[u8]) -> Result<Vec<u8>, WorkFault>
    ensures ok { IfOk result (λ text. FindsLegal input.now text.items) }
    ensures refused { (fault : ALineFault) → result ≡ Err (WorkFault.Refused fault) →
        first_history_fault input.now ≡ Some fault }
    ensures not_legal { (line : ℕ) → result ≡ Err (WorkFault.NotLegal line) →
        FindsIllegal input.now line }
{
    let history = history_of(alloc, input)?;
    let count = check(alloc, &history)?;
    let text = legal_text(alloc, count)?;
    Ok(text)
}
