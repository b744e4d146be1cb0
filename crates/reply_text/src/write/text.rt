ghost use Rattle.std.specs.Prelude.{◌≡◌, [], ◌∷◌, ◌++◌, map, OnOk, IfOk};
ghost use Rattle.std.specs.List.{AllByRecursion};
ghost use Rattle.script_text.specs.declared.script.Form.TheVariants.{Play, Run};
ghost use Rattle.script_text.specs.Preamble.{usual_board};
ghost use Rattle.script_text.specs.Text.{text_of};
ghost use Rattle.reply_text.specs.declared.history_line.HistoryLine.TheVariants as lines;
ghost use Rattle.reply_text.specs.History.{IsHistory, IsSpellable, form_line, history_lines, lines_with_mark, space_line};
ghost use Rattle.reply_text.specs.write.Lines.{history_line};
ghost use Rattle.reply_text.specs.Written.{HasText};

use crate::history::{History, SpaceMark};
use crate::write::rendering::push_entry;
use heap_model::{Entry, Memory};
use script_text::{Form, push_heap_line, push_named};
use std::alloc::Global;

/// The first line of a play and its line feed.
fn play_line(version: u8) -> &'static [u8]
    ensures { result.now ≡ form_line version Play ++ 10 ∷ [] }
{
    if version == 2 {
        b"history 2 play\n"
    } else {
        b"history 1 play\n"
    }
}

/// The first line of a run and its line feed.
fn run_line(version: u8) -> &'static [u8]
    ensures { result.now ≡ form_line version Run ++ 10 ∷ [] }
{
    if version == 2 {
        b"history 2 run\n"
    } else {
        b"history 1 run\n"
    }
}

/// The first line and its line feed.
fn form_line(version: u8, form: Form) -> &'static [u8]
    ensures { result.now ≡ form_line version form ++ 10 ∷ [] }
{
    match form {
        Form::Play => play_line(version),
        Form::Run => run_line(version),
    }
}

/// Appends the lines of entries, each with its line feed.
fn push_entries(text: &mut Vec<u8>, entries: &[Entry]) -> Result<(), Memory>
    ensures { OnOk result
        (text.new.items ≡ text.old.items ++ text_of (map history_line (map lines.Entry entries.now))) }
{
    for entry in entries {
        push_entry(text, entry)?;
        text.push(b'\n')?;
    }
    Ok(())
}

/// Appends the space line and its line feed.
#[tactic(auto, using(crate::proofs::write_lemmas::Lines::spelling))]
pub fn push_space(text: &mut Vec<u8>, mark: SpaceMark) -> Result<(), Memory>
    ensures { OnOk result
        (text.new.items ≡ text.old.items ++ (history_line (space_line mark) ++ 10 ∷ [])) }
{
    text.extend_from_slice(b"space")?;
    push_named(text, b"used", mark.used)?;
    push_named(text, b"of", mark.total)?;
    push_named(text, b"spine", mark.spine)?;
    push_named(text, b"of", mark.budget)?;
    text.push(b'\n')?;
    Ok(())
}

/// Appends the end line and its line feed.
#[tactic(auto, using(crate::proofs::write_lemmas::Lines::spelling))]
pub fn push_end(text: &mut Vec<u8>, used: u64) -> Result<(), Memory>
    ensures { OnOk result
        (text.new.items ≡ text.old.items ++ (history_line (lines.End used) ++ 10 ∷ [])) }
{
    text.extend_from_slice(b"end")?;
    push_named(text, b"used", used)?;
    text.push(b'\n')?;
    Ok(())
}

/// Appends the lines of entries, and the space line where it stands among them.
fn push_marked(text: &mut Vec<u8>, mark: Option<SpaceMark>, entries: &[Entry]) -> Result<(), Memory>
    ensures { OnOk result
        (text.new.items ≡ text.old.items ++ text_of (map history_line (lines_with_mark mark entries.now))) }
{
    let Some(mark) = mark else {
        return push_entries(text, entries);
    };
    let (before, after) = entries.split_at(mark.before.min(entries.len()));
    push_entries(text, before)?;
    push_space(text, mark)?;
    push_entries(text, after)
}

fn render(alloc: Global, history: &History) -> Result<Vec<u8>, Memory>
    ensures { IfOk result (λ text. text.items ≡ text_of (history_lines history.now)) }
{
    let mut text = Vec::from_slice(alloc, form_line(history.version, history.form))?;
    push_heap_line(&mut text, &history.preamble())?;
    push_marked(&mut text, history.mark, history.entries.as_slice())?;
    push_end(&mut text, history.end_used)?;
    Ok(text)
}

/// The text of the history, each line with its line feed.
pub fn render_history(alloc: Global, history: &History) -> Result<Vec<u8>, Memory>
    requires spelled { AllByRecursion (HasText history.now.version) history.now.entries }
    requires board { history.now.version ≡ 1 → history.now.heap.board ≡ usual_board }
    ensures text { IfOk result (λ text. text.items ≡ text_of (history_lines history.now)) }
    // Read again, the text is this history.
    ensures again { IsSpellable history.now →
        IfOk result (λ text. IsHistory text.items history.now) }
{
    render(alloc, history)
}
