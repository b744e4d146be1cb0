ghost use Rattle.std.specs.Prelude.{◌≡◌, ◌≤◌, ◌<◌, ◌∷◌, ◌++◌, None, Some, codes, decimal, IfOk, MatchResult};
ghost use Rattle.script_text.specs.declared.preamble.Preamble.{Preamble as APreamble};
ghost use Rattle.script_text.specs.declared.script.Form.{Form};
ghost use Rattle.script_text.specs.Numbers.{number_below};
ghost use Rattle.reply_text.specs.read.Tokens.{ReadsAs};
ghost use Rattle.reply_text.specs.write.Entries.{entry_words};
ghost use Rattle.reply_text.specs.write.Lines.{history_words, history_line, IsHistoryLine};
ghost use Rattle.reply_text.specs.read.EntryWords.{entry_at};
ghost use Rattle.reply_text.specs.read.LineWords.{space_at, end_at, line_at, line_of};
ghost use Rattle.reply_text.specs.Written.{IsWritten};

use crate::history_line::HistoryLine;
use crate::read::collector::read_collector;
use crate::read::misspelled::Misspelled;
use crate::read::seat::read_seat_entry;
use crate::read::tokens::{literal, next_word, number, number_of_word};
use heap_model::Entry;
use script_text::{Form, Parts, Preamble};

/// The seat that the word is the number of.
fn read_seat(word: &[u8], seats: u8) -> Result<u8, Misspelled>
    requires { 1 ≤ seats }
    ensures found { IfOk result (λ seat. word.now ≡ decimal seat) }
    ensures range { IfOk result (λ seat. seat < seats) }
    ensures gives { MatchResult result
        (λ seat. number_below seats word.now ≡ Some seat)
        (λ _. number_below seats word.now ≡ None) }
{
    Ok(number_of_word(word, (seats - 1).into())? as u8)
}

/// The entry that begins with this word.
fn read_entry(
    word: &[u8],
    words: &mut Parts<'_>,
    form: Form,
    preamble: &Preamble,
) -> Result<Entry, Misspelled>
    requires { 1 ≤ preamble.now.heap.seats }
    ensures found { IfOk result (λ entry. word.now ∷ words.old ≡ entry_words entry ++ words.new) }
    ensures range { IfOk result (IsWritten form preamble.now) }
    ensures gives { ReadsAs result (entry_at form preamble.now word.now words.old) words.new }
{
    if word == b"c".as_slice() {
        return read_collector(words, form);
    }
    let seat = read_seat(word, preamble.heap.seats)?;
    read_seat_entry(seat, words, preamble)
}

/// The space line, after its first word.
fn read_space(words: &mut Parts<'_>) -> Result<HistoryLine, Misspelled>
    ensures found { IfOk result
        (λ line. codes "space" ∷ words.old ≡ history_words line ++ words.new) }
    ensures range { (form : Form) (preamble : APreamble) → IfOk result (IsHistoryLine form preamble) }
    ensures gives { ReadsAs result (space_at words.old) words.new }
{
    literal(words, b"used")?;
    let used = number(words, u64::MAX)?;
    literal(words, b"of")?;
    let total = number(words, u64::MAX)?;
    literal(words, b"spine")?;
    let spine = number(words, u64::MAX)?;
    literal(words, b"of")?;
    let budget = number(words, u64::MAX)?;
    Ok(HistoryLine::Space {
        used,
        total,
        spine,
        budget,
    })
}

/// The end line, after its first word.
fn read_end(words: &mut Parts<'_>) -> Result<HistoryLine, Misspelled>
    ensures found { IfOk result
        (λ line. codes "end" ∷ words.old ≡ history_words line ++ words.new) }
    ensures range { (form : Form) (preamble : APreamble) → IfOk result (IsHistoryLine form preamble) }
    ensures gives { ReadsAs result (end_at words.old) words.new }
{
    literal(words, b"used")?;
    Ok(HistoryLine::End(number(words, u64::MAX)?))
}

/// The line that the next words are.
fn read_front(
    words: &mut Parts<'_>,
    form: Form,
    preamble: &Preamble,
) -> Result<HistoryLine, Misspelled>
    requires { 1 ≤ preamble.now.heap.seats }
    ensures found { IfOk result (λ line. words.old ≡ history_words line ++ words.new) }
    ensures range { IfOk result (IsHistoryLine form preamble.now) }
    ensures gives { ReadsAs result (line_at form preamble.now words.old) words.new }
{
    let word = next_word(words)?;
    if word == b"space".as_slice() {
        return read_space(words);
    }
    if word == b"end".as_slice() {
        return read_end(words);
    }
    let entry = read_entry(word, words, form, preamble)?;
    Ok(HistoryLine::Entry(entry))
}

/// The line of a history that the bytes are.
#[tactic(auto, unfolding(crate::specs::read::LineWords::line_of))]
pub fn read_line(line: &[u8], form: Form, preamble: &Preamble) -> Result<HistoryLine, Misspelled>
    requires { 1 ≤ preamble.now.heap.seats }
    ensures found { IfOk result (λ read. line.now ≡ history_line read) }
    ensures range { IfOk result (IsHistoryLine form preamble.now) }
    ensures gives { MatchResult result
        (λ read. line_of form preamble.now line.now ≡ Some read)
        (λ _. line_of form preamble.now line.now ≡ None) }
{
    let mut words = Parts::words(line);
    let read = read_front(&mut words, form, preamble)?;
    if words.next().is_some() {
        return Err(Misspelled);
    }
    Ok(read)
}
