ghost use Rattle.std.specs.Prelude.{◌≡◌, ◌∷◌, ◌++◌, [], decimal, IfOk, IsSome, OnOk};
ghost use Rattle.script_text.specs.declared.script.Form.TheVariants.{Play};
ghost use Rattle.script_text.specs.Preamble.{usual_board};
ghost use Rattle.script_text.specs.Text.{text_of};
ghost use Rattle.reply_text.specs.write.Brief.{brief_lines, commands_line, work_line, mark_lines};

use crate::history::{History, SpaceMark};
use crate::write::counts::BriefCounts;
use crate::write::text::{push_end, push_space};
use heap_model::Memory;
use itoa::Buffer;
use script_text::{push_heap_line, push_named, push_number, push_word};
use std::alloc::Global;

/// Appends a space and the number in decimal digits.
fn push_sum(text: &mut Vec<u8>, sum: u128) -> Result<(), Memory>
    ensures { OnOk result (text.new.items ≡ text.old.items ++ 32 ∷ decimal sum) }
{
    push_word(text, Buffer::new().format(sum).as_bytes())
}

/// Appends the line of the commands and its line feed.
#[tactic(auto, using(crate::proofs::write_lemmas::Lines::spelling))]
fn push_commands(text: &mut Vec<u8>, counts: &BriefCounts) -> Result<(), Memory>
    ensures { OnOk result (text.new.items ≡ text.old.items ++ (commands_line counts.now ++ 10 ∷ [])) }
{
    text.extend_from_slice(b"commands")?;
    push_number(text, counts.commands)?;
    push_named(text, b"refused", counts.refused)?;
    text.push(b'\n')?;
    Ok(())
}

/// Appends the line of what was made and collected, and its line feed.
#[tactic(auto, using(crate::proofs::write_lemmas::Lines::spelling))]
fn push_work(text: &mut Vec<u8>, counts: &BriefCounts) -> Result<(), Memory>
    ensures { OnOk result (text.new.items ≡ text.old.items ++ (work_line counts.now ++ 10 ∷ [])) }
{
    text.extend_from_slice(b"made")?;
    push_number(text, counts.made)?;
    push_named(text, b"cycles", counts.cycles)?;
    push_word(text, b"freed")?;
    push_sum(text, counts.freed)?;
    push_named(text, b"swung", counts.swung)?;
    text.push(b'\n')?;
    Ok(())
}

fn push_mark(text: &mut Vec<u8>, mark: Option<SpaceMark>) -> Result<(), Memory>
    ensures { OnOk result (text.new.items ≡ text.old.items ++ text_of (mark_lines mark)) }
{
    let Some(mark) = mark else {
        return Ok(());
    };
    push_space(text, mark)
}

/// The brief of a play: how much was asked and done, and what was in use when the lines were done and at the end.
pub fn render_brief(alloc: Global, history: &History) -> Result<Vec<u8>, Memory>
    requires play { history.now.form ≡ Play }
    requires marked { IsSome history.now.mark }
    requires board { history.now.version ≡ 1 → history.now.heap.board ≡ usual_board }
    ensures { IfOk result (λ text. text.items ≡ text_of (brief_lines history.now)) }
{
    let counts = BriefCounts::of(history.entries.as_slice());
    let mut text = Vec::from_slice(alloc, b"brief 1\n")?;
    push_heap_line(&mut text, &history.preamble())?;
    push_commands(&mut text, &counts)?;
    push_work(&mut text, &counts)?;
    push_mark(&mut text, history.mark)?;
    push_end(&mut text, history.end_used)?;
    Ok(text)
}
