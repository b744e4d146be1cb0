ghost use Rattle.std.specs.Prelude.{IfOk};
ghost use Rattle.form_words.specs.Works.{MayBeMade};
ghost use Rattle.schism_program.specs.Serving.{IsMadeText};

use heap_model::Memory;
use script_text::{make_script, write_script};
use std::alloc::Global;

/// The text of a script that is made.
pub fn made_script_text(alloc: Global, start: u32, seats: u8, lines: u32) -> Result<Vec<u8>, Memory>
    requires { MayBeMade start seats lines }
    ensures { IfOk result (λ text. IsMadeText start seats lines text.items) }
{
    let script = make_script(alloc, start, seats, lines)?;
    let text = write_script(alloc, &script)?;
    Ok(text)
}
