ghost use Rattle.std.specs.Prelude.{◌≡◌, ◌∷◌, ◌++◌, codes, IfOk};
ghost use Rattle.script_text.specs.declared.preamble.Preamble.{Preamble};
ghost use Rattle.script_text.specs.declared.script.Form.{Form};
ghost use Rattle.reply_text.specs.read.Tokens.{ReadsAs};
ghost use Rattle.reply_text.specs.write.Entries.{entry_words};
ghost use Rattle.reply_text.specs.read.EntryWords.{collector_entry, ends_at};
ghost use Rattle.reply_text.specs.Written.{IsWritten};

use crate::read::misspelled::Misspelled;
use crate::read::tokens::{count, id, literal, next_word, number};
use crate::read::turned::read_turned;
use heap_model::Entry;
use script_text::{Form, Parts};

/// A cycle that ended, after the word `ends`.
fn read_ends(words: &mut Parts<'_>) -> Result<Entry, Misspelled>
    ensures found { IfOk result
        (λ entry. codes "c" ∷ codes "ends" ∷ words.old ≡ entry_words entry ++ words.new) }
    ensures range { (form : Form) (preamble : Preamble) → IfOk result (IsWritten form preamble) }
    ensures gives { ReadsAs result (ends_at words.old) words.new }
{
    let cycle = number(words, u64::MAX)?;
    literal(words, b"kept")?;
    let kept = number(words, u64::MAX)?;
    Ok(Entry::Ends { cycle, kept })
}

/// What the collector did, after its word `c`.
pub fn read_collector(words: &mut Parts<'_>, form: Form) -> Result<Entry, Misspelled>
    ensures found { IfOk result (λ entry. codes "c" ∷ words.old ≡ entry_words entry ++ words.new) }
    ensures range { (preamble : Preamble) → IfOk result (IsWritten form preamble) }
    ensures gives { ReadsAs result (collector_entry form words.old) words.new }
{
    let word = next_word(words)?;
    if word == b"phase".as_slice() {
        return Ok(Entry::Advance(number(words, u64::MAX)?));
    }
    if word == b"frees".as_slice() {
        return Ok(Entry::Frees(count(words)?));
    }
    if word == b"returns".as_slice() {
        return Ok(Entry::Returns(count(words)?));
    }
    if word == b"swings".as_slice() {
        return Ok(Entry::Swings(id(words)?));
    }
    if word == b"ends".as_slice() {
        return read_ends(words);
    }
    read_turned(word, words, form)
}
