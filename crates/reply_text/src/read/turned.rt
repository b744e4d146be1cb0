ghost use Rattle.std.specs.Prelude.{◌≡◌, ℕ, ◌∷◌, ◌++◌, codes, IfOk};
ghost use Rattle.heap_model.specs.declared.command.TurnCommand.TheVariants as commands;
ghost use Rattle.script_text.specs.declared.preamble.Preamble.{Preamble};
ghost use Rattle.script_text.specs.declared.script.Form.TheVariants.{Play};
ghost use Rattle.reply_text.specs.read.Tokens.{ReadsAs};
ghost use Rattle.reply_text.specs.read.TurnAnswers.{waiting_at, turning_at, cycling_at};
ghost use Rattle.reply_text.specs.write.Entries.{entry_words, turn_reply_words};
ghost use Rattle.reply_text.specs.read.EntryWords.{cycle_at, turned_at, turns_at};
ghost use Rattle.reply_text.specs.Replies.{IsTurnReply};
ghost use Rattle.reply_text.specs.Written.{IsWritten};

use crate::read::answers::wait;
use crate::read::misspelled::Misspelled;
use crate::read::tokens::{literal, next_word, number};
use heap_model::limits::MOST_TURNS;
use heap_model::{Entry, TurnCommand, TurnReply};
use script_text::{Form, Parts};

/// The collector waits for a seat: what follows the word `waits`.
fn waiting(words: &mut Parts<'_>) -> Result<TurnReply, Misspelled>
    ensures found { IfOk result
        (λ reply. codes "waits" ∷ words.old ≡ turn_reply_words reply ++ words.new) }
    ensures turns { (n : ℕ) → IfOk result (IsTurnReply (commands.Turns n)) }
    ensures cycle { IfOk result (IsTurnReply commands.Cycle) }
    ensures gives { ReadsAs result (waiting_at words.old) words.new }
{
    Ok(TurnReply::from(wait(words)?))
}

/// A reply of the collector to `turns`.
fn turning(words: &mut Parts<'_>) -> Result<TurnReply, Misspelled>
    ensures found { IfOk result (λ reply. words.old ≡ turn_reply_words reply ++ words.new) }
    ensures range { (n : ℕ) → IfOk result (IsTurnReply (commands.Turns n)) }
    ensures gives { ReadsAs result (turning_at words.old) words.new }
{
    match next_word(words)? {
        b"done" => Ok(TurnReply::Done),
        b"waits" => waiting(words),
        _ => Err(Misspelled),
    }
}

/// A reply of the collector to `cycle`.
fn cycling(words: &mut Parts<'_>) -> Result<TurnReply, Misspelled>
    ensures found { IfOk result (λ reply. words.old ≡ turn_reply_words reply ++ words.new) }
    ensures range { IfOk result (IsTurnReply commands.Cycle) }
    ensures gives { ReadsAs result (cycling_at words.old) words.new }
{
    match next_word(words)? {
        b"cycle" => Ok(TurnReply::Cycle(number(words, u64::MAX)?)),
        b"waits" => waiting(words),
        _ => Err(Misspelled),
    }
}

/// The collector's command `turns`, after that word, and its reply.
fn read_turns(words: &mut Parts<'_>) -> Result<Entry, Misspelled>
    ensures found { IfOk result
        (λ entry. codes "c" ∷ codes "turns" ∷ words.old ≡ entry_words entry ++ words.new) }
    ensures range { (preamble : Preamble) → IfOk result (IsWritten Play preamble) }
    ensures gives { ReadsAs result (turns_at words.old) words.new }
{
    let n = number(words, MOST_TURNS.into())? as u32;
    literal(words, b"=")?;
    let reply = turning(words)?;
    let command = TurnCommand::Turns(n);
    Ok(Entry::Turned { command, reply })
}

/// The collector's command `cycle`, after that word, and its reply.
fn read_cycle(words: &mut Parts<'_>) -> Result<Entry, Misspelled>
    ensures found { IfOk result
        (λ entry. codes "c" ∷ codes "cycle" ∷ words.old ≡ entry_words entry ++ words.new) }
    ensures range { (preamble : Preamble) → IfOk result (IsWritten Play preamble) }
    ensures gives { ReadsAs result (cycle_at words.old) words.new }
{
    literal(words, b"=")?;
    let reply = cycling(words)?;
    let command = TurnCommand::Cycle;
    Ok(Entry::Turned { command, reply })
}

/// The command of the collector that begins with this word, and its reply; a run has none.
pub fn read_turned(word: &[u8], words: &mut Parts<'_>, form: Form) -> Result<Entry, Misspelled>
    ensures found { IfOk result
        (λ entry. codes "c" ∷ word.now ∷ words.old ≡ entry_words entry ++ words.new) }
    ensures range { (preamble : Preamble) → IfOk result (IsWritten form preamble) }
    ensures gives { ReadsAs result (turned_at form word.now words.old) words.new }
{
    let Form::Play = form else {
        return Err(Misspelled);
    };
    match word {
        b"turns" => read_turns(words),
        b"cycle" => read_cycle(words),
        _ => Err(Misspelled),
    }
}
