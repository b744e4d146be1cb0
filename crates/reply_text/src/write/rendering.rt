ghost use Rattle.std.specs.Prelude.{◌≡◌, [], ◌∷◌, ◌++◌, codes, decimal, IfOk, OnOk};
ghost use Rattle.script_text.specs.Text.{words_with_spaces};
ghost use Rattle.reply_text.specs.write.Entries.{entry_text};

use crate::write::replies::{push_id, push_reply, push_turn_reply};
use heap_model::{Entry, Memory};
use script_text::{push_command, push_digits, push_named, push_turns, push_word};
use std::alloc::Global;

fn push_seat(text: &mut Vec<u8>, seat: u8) -> Result<(), Memory>
    ensures { OnOk result (text.new.items ≡ text.old.items ++ decimal seat) }
{
    push_digits(text, seat.into())
}

fn push_gives_back(text: &mut Vec<u8>, count: u32) -> Result<(), Memory>
    ensures { OnOk result
        (text.new.items ≡ text.old.items ++ words_with_spaces (codes "gives" ∷ codes "back" ∷ decimal count ∷ [])) }
{
    push_word(text, b"gives")?;
    push_named(text, b"back", count.into())
}

/// Appends the line of an entry, without a line feed.
#[tactic(auto, using(crate::proofs::write_lemmas::Lines::spelling))]
pub fn push_entry(text: &mut Vec<u8>, entry: &Entry) -> Result<(), Memory>
    ensures { OnOk result (text.new.items ≡ text.old.items ++ entry_text entry.now) }
{
    match *entry {
        Entry::Said {
            seat,
            command,
            reply,
        } => {
            push_seat(text, seat)?;
            push_command(text, &command)?;
            push_word(text, b"=")?;
            push_reply(text, &reply)
        }
        Entry::Takes { seat, count } => {
            push_seat(text, seat)?;
            push_named(text, b"takes", count.into())
        }
        Entry::GivesBack { seat, count } => {
            push_seat(text, seat)?;
            push_gives_back(text, count)
        }
        Entry::Answers { seat, phase } => {
            push_seat(text, seat)?;
            push_named(text, b"answers", phase)
        }
        Entry::Advance(phase) => {
            text.push(b'c')?;
            push_named(text, b"phase", phase)
        }
        Entry::Frees(count) => {
            text.push(b'c')?;
            push_named(text, b"frees", count.into())
        }
        Entry::Returns(count) => {
            text.push(b'c')?;
            push_named(text, b"returns", count.into())
        }
        Entry::Swings(id) => {
            text.push(b'c')?;
            push_word(text, b"swings")?;
            push_id(text, id)
        }
        Entry::Ends { cycle, kept } => {
            text.push(b'c')?;
            push_named(text, b"ends", cycle)?;
            push_named(text, b"kept", kept)
        }
        Entry::Turned { command, reply } => {
            text.push(b'c')?;
            push_turns(text, &command)?;
            push_word(text, b"=")?;
            push_turn_reply(text, &reply)
        }
    }
}

/// The line of an entry, without a line feed, as it stands in a text of each version that may have the entry.
pub fn render_entry(alloc: Global, entry: &Entry) -> Result<Vec<u8>, Memory>
    ensures { IfOk result (λ text. text.items ≡ entry_text entry.now) }
{
    let mut text = Vec::new(alloc);
    push_entry(&mut text, entry)?;
    Ok(text)
}
