ghost use Rattle.std.specs.Prelude.{◌≡◌, ◌<◌, ◌∷◌, ◌++◌, decimal, IfOk};
ghost use Rattle.script_text.specs.declared.script.Form.{Form};
ghost use Rattle.reply_text.specs.read.Tokens.{ReadsAs};
ghost use Rattle.reply_text.specs.write.Entries.{entry_words};
ghost use Rattle.reply_text.specs.read.EntryWords.{seat_entry};
ghost use Rattle.reply_text.specs.Written.{IsWritten};

use crate::read::misspelled::Misspelled;
use crate::read::said::read_said;
use crate::read::tokens::{count, literal, next_word, number};
use heap_model::Entry;
use script_text::{Parts, Preamble};

/// An entry of this seat, after its number.
pub fn read_seat_entry(
    seat: u8,
    words: &mut Parts<'_>,
    preamble: &Preamble,
) -> Result<Entry, Misspelled>
    ensures found { IfOk result
        (λ entry. decimal seat ∷ words.old ≡ entry_words entry ++ words.new) }
    ensures range { (form : Form) → seat < preamble.now.heap.seats →
        IfOk result (IsWritten form preamble.now) }
    ensures gives { ReadsAs result (seat_entry preamble.now.version seat words.old) words.new }
{
    let word = next_word(words)?;
    if word == b"takes".as_slice() {
        let count = count(words)?;
        return Ok(Entry::Takes { seat, count });
    }
    if word == b"gives".as_slice() {
        literal(words, b"back")?;
        let count = count(words)?;
        return Ok(Entry::GivesBack { seat, count });
    }
    if word == b"answers".as_slice() {
        let phase = number(words, u64::MAX)?;
        return Ok(Entry::Answers { seat, phase });
    }
    let (command, reply) = read_said(word, words, preamble.version)?;
    Ok(Entry::Said {
        seat,
        command,
        reply,
    })
}
