ghost use Rattle.std.specs.Prelude.{◌≡◌, [], ◌∷◌, ◌++◌, OnOk, IfOk};
ghost use Rattle.script_text.specs.declared.script.Form.{Form};
ghost use Rattle.script_text.specs.declared.script.Form.TheVariants.{Play};
ghost use Rattle.script_text.specs.Grammar.{IsScript};
ghost use Rattle.script_text.specs.Text.{text_of};
ghost use Rattle.script_text.specs.Words.{heap_line, line_text, script_header, script_lines};
ghost use Rattle.script_text.specs.Writing.{IsOfForm};

use crate::preamble::Preamble;
use crate::script::{Line, Script};
use crate::writing::{push_command, push_digits, push_heap, push_turns};
use heap_model::Memory;
use std::alloc::Global;

/// Appends a line and its line feed.
fn push_line(text: &mut Vec<u8>, line: &Line) -> Result<(), Memory>
    ensures { OnOk result (text.new.items ≡ text.old.items ++ (line_text line.now ++ 10 ∷ [])) }
{
    match *line {
        Line::Seat { seat, command } => {
            push_digits(text, seat.into())?;
            push_command(text, &command)?;
        }
        Line::Turns { command } => {
            text.push(b'c')?;
            push_turns(text, &command)?;
        }
    }
    text.push(b'\n')?;
    Ok(())
}

/// Appends the heap line and its line feed.
pub fn push_heap_line(text: &mut Vec<u8>, preamble: &Preamble) -> Result<(), Memory>
    ensures { OnOk result (text.new.items ≡ text.old.items ++ (heap_line preamble.now ++ 10 ∷ [])) }
{
    text.extend_from_slice(b"heap")?;
    push_heap(text, preamble)?;
    text.push(b'\n')?;
    Ok(())
}

/// Appends the first line and its line feed.
fn push_header(text: &mut Vec<u8>, version: u8) -> Result<(), Memory>
    ensures { OnOk result (text.new.items ≡ text.old.items ++ (script_header version ++ 10 ∷ [])) }
{
    if version == 2 {
        text.extend_from_slice(b"schism 2\n")?;
    } else {
        text.extend_from_slice(b"schism 1\n")?;
    }
    Ok(())
}

fn write(alloc: Global, script: &Script) -> Result<Vec<u8>, Memory>
    ensures { IfOk result (λ text. text.items ≡ text_of (script_lines script.now)) }
{
    let mut text = Vec::new(alloc);
    push_header(&mut text, script.version)?;
    push_heap_line(&mut text, &script.preamble())?;
    for line in script.lines.as_slice() {
        push_line(&mut text, line)?;
    }
    Ok(text)
}

/// The text of the script, each line with its line feed.
pub fn write_script(alloc: Global, script: &Script) -> Result<Vec<u8>, Memory>
    requires { IsOfForm Play script.now }
    ensures text { IfOk result (λ text. text.items ≡ text_of (script_lines script.now)) }
    // Read again, in each form that it is of, the text is this script.
    ensures again { (form : Form) → IsOfForm form script.now →
        IfOk result (λ text. IsScript form text.items script.now) }
{
    write(alloc, script)
}
