ghost use Rattle.std.specs.Prelude.{◌≡◌, ◌∷◌, ◌++◌, codes, decimal, IfOk};
ghost use Rattle.heap_model.specs.Behind.{as_reply};
ghost use Rattle.heap_model.specs.declared.reply.Reply.TheVariants as replies;
ghost use Rattle.reply_text.specs.read.Tokens.{ReadsAs};
ghost use Rattle.reply_text.specs.read.Parts.{value_at, lack_at, wait_at};
ghost use Rattle.reply_text.specs.read.Answers.{making_at, arraying_at, nowhere_at, getting_at, setting_at, swapping_at, done_at, comparing_at, measuring_at, polling_at, collecting_at, answer_at};
ghost use Rattle.reply_text.specs.write.Entries.{reply_words, value_words};
ghost use Rattle.reply_text.specs.Values.{IsValue};
ghost use Rattle.reply_text.specs.Replies.{IsMaking, IsArraying, TellsNoPlace, IsGetting, IsSetting, IsSwapping, IsComparing, IsMeasuring, IsPolling, IsCollecting, IsReply};

use crate::read::misspelled::Misspelled;
use crate::read::tokens::{count, id, literal, next_word, number, number_of_word, read_id, stamp};
use heap_model::limits::{LAST_SEAT, NUMBER_LIMIT};
use heap_model::{Behind, Command, Reply, Value};
use script_text::Parts;

fn value(word: &[u8], words: &mut Parts<'_>) -> Result<Value, Misspelled>
    ensures found { IfOk result (λ value. word.now ∷ words.old ≡ value_words value ++ words.new) }
    ensures range { IfOk result IsValue }
    ensures gives { ReadsAs result (value_at word.now words.old) words.new }
{
    if word == b"nil".as_slice() {
        return Ok(Value::Nil);
    }
    if word == b"number".as_slice() {
        return Ok(Value::Number(number(words, (NUMBER_LIMIT - 1).into())? as u32));
    }
    if word == b"object".as_slice() {
        return Ok(Value::Object(id(words)?));
    }
    Err(Misspelled)
}

/// What is needed, and what was there instead.
fn lack(words: &mut Parts<'_>, shown: &[u8]) -> Result<(u32, u32), Misspelled>
    ensures found { IfOk result
        (λ lack. words.old ≡ codes "need" ∷ decimal lack.0 ∷ shown.now ∷ decimal lack.1 ∷ words.new) }
    ensures gives { ReadsAs result (lack_at shown.now words.old) words.new }
{
    literal(words, b"need")?;
    let need = count(words)?;
    literal(words, shown)?;
    let number = count(words)?;
    Ok((need, number))
}

/// The seat that is waited for, what it answered, and the phase.
pub fn wait(words: &mut Parts<'_>) -> Result<Behind, Misspelled>
    ensures found { IfOk result
        (λ behind. codes "waits" ∷ words.old ≡ reply_words (as_reply behind) ++ words.new) }
    ensures range { IfOk result (λ behind. IsCollecting (as_reply behind)) }
    ensures gives { ReadsAs result (wait_at words.old) words.new }
{
    let seat = number(words, LAST_SEAT.into())? as u8;
    literal(words, b"answered")?;
    let answered = number(words, u64::MAX)?;
    literal(words, b"phase")?;
    let phase = number(words, u64::MAX)?;
    Ok(Behind {
        seat,
        answered,
        phase,
    })
}

/// A reply to `new`.
fn making(word: &[u8], words: &mut Parts<'_>) -> Result<Reply, Misspelled>
    ensures found { IfOk result (λ reply. word.now ∷ words.old ≡ reply_words reply ++ words.new) }
    ensures range { IfOk result IsMaking }
    ensures gives { ReadsAs result (making_at word.now words.old) words.new }
{
    if word == b"full".as_slice() {
        let (need, found) = lack(words, b"found")?;
        return Ok(Reply::Full { need, found });
    }
    Ok(Reply::Made(read_id(word)?))
}

/// A reply to `array`.
fn arraying(word: &[u8], words: &mut Parts<'_>) -> Result<Reply, Misspelled>
    ensures found { IfOk result (λ reply. word.now ∷ words.old ≡ reply_words reply ++ words.new) }
    ensures range { IfOk result IsArraying }
    ensures gives { ReadsAs result (arraying_at word.now words.old) words.new }
{
    if word == b"spine".as_slice() {
        let (need, used) = lack(words, b"used")?;
        return Ok(Reply::SpineFull { need, used });
    }
    making(word, words)
}

/// What isn't there, after the word `no`.
fn nowhere(words: &mut Parts<'_>) -> Result<Reply, Misspelled>
    ensures found { IfOk result (λ reply. codes "no" ∷ words.old ≡ reply_words reply ++ words.new) }
    ensures range { IfOk result TellsNoPlace }
    ensures gives { ReadsAs result (nowhere_at words.old) words.new }
{
    let word = next_word(words)?;
    if word == b"object".as_slice() {
        return Ok(Reply::NoObject);
    }
    if word == b"field".as_slice() {
        return Ok(Reply::NoField);
    }
    Err(Misspelled)
}

/// A reply to `get`.
fn getting(word: &[u8], words: &mut Parts<'_>) -> Result<Reply, Misspelled>
    ensures found { IfOk result (λ reply. word.now ∷ words.old ≡ reply_words reply ++ words.new) }
    ensures range { IfOk result IsGetting }
    ensures gives { ReadsAs result (getting_at word.now words.old) words.new }
{
    if word == b"no".as_slice() {
        return nowhere(words);
    }
    let value = value(word, words)?;
    literal(words, b"at")?;
    let stamp = stamp(words)?;
    Ok(Reply::Got { value, stamp })
}

/// A reply to `set`.
fn setting(word: &[u8], words: &mut Parts<'_>) -> Result<Reply, Misspelled>
    ensures found { IfOk result (λ reply. word.now ∷ words.old ≡ reply_words reply ++ words.new) }
    ensures range { IfOk result IsSetting }
    ensures gives { ReadsAs result (setting_at word.now words.old) words.new }
{
    match word {
        b"no" => nowhere(words),
        b"was" => Ok(Reply::Was(stamp(words)?)),
        _ => Err(Misspelled),
    }
}

/// A reply to `cas`.
fn swapping(word: &[u8], words: &mut Parts<'_>) -> Result<Reply, Misspelled>
    ensures found { IfOk result (λ reply. word.now ∷ words.old ≡ reply_words reply ++ words.new) }
    ensures range { IfOk result IsSwapping }
    ensures gives { ReadsAs result (swapping_at word.now words.old) words.new }
{
    if word == b"now".as_slice() {
        return Ok(Reply::Now(stamp(words)?));
    }
    setting(word, words)
}

/// A reply to a command that can't fail.
fn done(word: &[u8], words: &mut Parts<'_>) -> Result<Reply, Misspelled>
    ensures found { IfOk result (λ reply. word.now ∷ words.old ≡ reply_words reply ++ words.new) }
    ensures range { IfOk result (λ reply. reply ≡ replies.Done) }
    ensures gives { ReadsAs result (done_at word.now words.old) words.new }
{
    match word {
        b"ok" => Ok(Reply::Done),
        _ => Err(Misspelled),
    }
}

/// A reply to `same`.
fn comparing(word: &[u8], words: &mut Parts<'_>) -> Result<Reply, Misspelled>
    ensures found { IfOk result (λ reply. word.now ∷ words.old ≡ reply_words reply ++ words.new) }
    ensures range { IfOk result IsComparing }
    ensures gives { ReadsAs result (comparing_at word.now words.old) words.new }
{
    match word {
        b"yes" => Ok(Reply::Yes),
        b"no" => Ok(Reply::No),
        _ => Err(Misspelled),
    }
}

/// A reply to `len`.
fn measuring(word: &[u8], words: &mut Parts<'_>) -> Result<Reply, Misspelled>
    ensures found { IfOk result (λ reply. word.now ∷ words.old ≡ reply_words reply ++ words.new) }
    ensures range { IfOk result IsMeasuring }
    ensures gives { ReadsAs result (measuring_at word.now words.old) words.new }
{
    if word == b"no".as_slice() {
        literal(words, b"object")?;
        return Ok(Reply::NoObject);
    }
    Ok(Reply::Length(number_of_word(word, u16::MAX.into())? as u16))
}

/// A reply to `poll`.
fn polling(word: &[u8], words: &mut Parts<'_>) -> Result<Reply, Misspelled>
    ensures found { IfOk result (λ reply. word.now ∷ words.old ≡ reply_words reply ++ words.new) }
    ensures range { IfOk result IsPolling }
    ensures gives { ReadsAs result (polling_at word.now words.old) words.new }
{
    Ok(Reply::Phase(number_of_word(word, u64::MAX)?))
}

/// A reply to `collect`.
fn collecting(word: &[u8], words: &mut Parts<'_>) -> Result<Reply, Misspelled>
    ensures found { IfOk result (λ reply. word.now ∷ words.old ≡ reply_words reply ++ words.new) }
    ensures range { IfOk result IsCollecting }
    ensures gives { ReadsAs result (collecting_at word.now words.old) words.new }
{
    match word {
        b"cycle" => Ok(Reply::Cycle(number(words, u64::MAX)?)),
        b"waits" => Ok(Reply::from(wait(words)?)),
        _ => Err(Misspelled),
    }
}

/// The reply that the next words are, of those that the command can give.
pub fn read_reply(words: &mut Parts<'_>, command: &Command) -> Result<Reply, Misspelled>
    ensures found { IfOk result (λ reply. words.old ≡ reply_words reply ++ words.new) }
    ensures range { IfOk result (IsReply command.now) }
    ensures gives { ReadsAs result (answer_at command.now words.old) words.new }
{
    let word = next_word(words)?;
    match *command {
        Command::New { .. } => making(word, words),
        Command::Array { .. } => arraying(word, words),
        Command::Get { .. } => getting(word, words),
        Command::Set { .. } => setting(word, words),
        Command::Cas { .. } => swapping(word, words),
        Command::Same { .. } => comparing(word, words),
        Command::Len { .. } => measuring(word, words),
        Command::Poll => polling(word, words),
        Command::Collect => collecting(word, words),
        Command::Num { .. } | Command::Nil { .. } | Command::Copy { .. } | Command::Leave => done(
            word, words,
        ),
    }
}
