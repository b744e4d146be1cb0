ghost use Rattle.std.specs.Prelude.{◌≡◌, ℕ, Err, IfOk, Some};
ghost use Rattle.script_text.specs.declared.cause.LineFault.{LineFault as ALineFault};
ghost use Rattle.script_text.specs.declared.script.Form.TheVariants.{Play};
ghost use Rattle.reply_text.specs.read.Faults.{first_history_fault};
ghost use Rattle.schism_program.specs.Migrating.{FailsAsText, Migrates, MigratesHistoryText, MigratesScriptText};
ghost use Rattle.schism_program.specs.Serving.{FailsAsScript};

use crate::fault::WorkFault;
use crate::serving::script_of;
use crate::verdict::history_of;
use form_words::TextKind;
use reply_text::{migrate_history, render_history};
use script_text::{Form, migrate_script, write_script};
use std::alloc::Global;

/// The text of the script that the input is, in version 2. It is read as one that is to be played.
fn migrated_script_text(alloc: Global, input: Vec<u8>) -> Result<Vec<u8>, WorkFault>
    ensures ok { IfOk result (λ text. MigratesScriptText input.items text.items) }
    ensures refused { (fault : ALineFault) → result ≡ Err (WorkFault.Refused fault) →
        FailsAsScript Play input.items fault.line fault.cause }
    ensures legal { (line : ℕ) → result ≡ Err (WorkFault.NotLegal line) → ⊥ }
{
    let script = script_of(alloc, &input, Form::Play)?;
    drop(input);
    let text = write_script(alloc, &migrate_script(script))?;
    Ok(text)
}

/// The text of the history that the input is, in version 2.
fn migrated_history_text(alloc: Global, input: Vec<u8>) -> Result<Vec<u8>, WorkFault>
    ensures ok { IfOk result (λ text. MigratesHistoryText input.items text.items) }
    ensures refused { (fault : ALineFault) → result ≡ Err (WorkFault.Refused fault) →
        first_history_fault input.items ≡ Some fault }
    ensures legal { (line : ℕ) → result ≡ Err (WorkFault.NotLegal line) → ⊥ }
{
    let history = history_of(alloc, &input)?;
    drop(input);
    let text = render_history(alloc, &migrate_history(history))?;
    Ok(text)
}

/// The text of the script or the history that the input is, in version 2.
pub fn migrated_text(alloc: Global, kind: TextKind, input: Vec<u8>) -> Result<Vec<u8>, WorkFault>
    ensures ok { IfOk result (λ text. Migrates kind input.items text.items) }
    ensures refused { (fault : ALineFault) → result ≡ Err (WorkFault.Refused fault) →
        FailsAsText kind input.items fault.line fault.cause }
    ensures legal { (line : ℕ) → result ≡ Err (WorkFault.NotLegal line) → ⊥ }
{
    match kind {
        TextKind::Script => migrated_script_text(alloc, input),
        TextKind::History => migrated_history_text(alloc, input),
    }
}
