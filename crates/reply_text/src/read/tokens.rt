ghost use Rattle.std.specs.Prelude.{◌≡◌, ◌+◌, ◌≤◌, ◌<◌, ◌^◌, [], ◌∷◌, ◌++◌, None, Some, decimal, IfOk, OnOk, MatchResult};
ghost use Rattle.heap_model.specs.Limits.{last_seat, stamp_limit};
ghost use Rattle.script_text.specs.Numbers.{number_below};
ghost use Rattle.reply_text.specs.write.Entries.{id_word, stamp_word};
ghost use Rattle.reply_text.specs.read.Tokens.{ReadsAs, after_word, first_by, word_id, number_at, word_parts, set_of, word_stamp};
ghost use Rattle.reply_text.specs.Values.{IsId, IsStamp};

use crate::read::misspelled::Misspelled;
use heap_model::Id;
use heap_model::limits::{LAST_SEAT, STAMP_LIMIT};
use script_text::{Parts, cut_at, read_number};

/// The next word.
pub fn next_word<'a>(words: &mut Parts<'a>) -> Result<&'a [u8], Misspelled>
    ensures { MatchResult result (λ word. words.old ≡ word.now ∷ words.new) (λ _. words.old ≡ []) }
{
    let Some(word) = words.next() else {
        return Err(Misspelled);
    };
    Ok(word)
}

/// Takes the next word, which is to be this one.
pub fn literal(words: &mut Parts<'_>, text: &[u8]) -> Result<(), Misspelled>
    ensures found { OnOk result (words.old ≡ text.now ∷ words.new) }
    ensures gives { MatchResult result
        (λ _. after_word text.now words.old ≡ Some words.new)
        (λ _. after_word text.now words.old ≡ None) }
{
    let word = next_word(words)?;
    if word == text {
        Ok(())
    } else {
        Err(Misspelled)
    }
}

/// The number that the word is, if it is at most `most`.
pub fn number_of_word(word: &[u8], most: u64) -> Result<u64, Misspelled>
    ensures range { IfOk result (λ n. n ≤ most) }
    ensures found { IfOk result (λ n. word.now ≡ decimal n) }
    ensures gives { MatchResult result
        (λ n. number_below (most + 1) word.now ≡ Some n)
        (λ _. number_below (most + 1) word.now ≡ None) }
{
    let Some(number) = read_number(word) else {
        return Err(Misspelled);
    };
    if number <= most {
        Ok(number)
    } else {
        Err(Misspelled)
    }
}

/// The next word as a number of at most `most`.
pub fn number(words: &mut Parts<'_>, most: u64) -> Result<u64, Misspelled>
    ensures range { IfOk result (λ n. n ≤ most) }
    ensures found { IfOk result (λ n. words.old ≡ decimal n ∷ words.new) }
    ensures gives { ReadsAs result (number_at (most + 1) words.old) words.new }
{
    let word = next_word(words)?;
    number_of_word(word, most)
}

/// A count of 32 bits.
pub fn count(words: &mut Parts<'_>) -> Result<u32, Misspelled>
    ensures found { IfOk result (λ n. words.old ≡ decimal n ∷ words.new) }
    ensures gives { ReadsAs result (number_at (2 ^ 32) words.old) words.new }
{
    Ok(number(words, u32::MAX.into())? as u32)
}

/// The parts of a word before and after its only mark.
fn parts(word: &[u8], mark: u8) -> Result<(&[u8], &[u8]), Misspelled>
    ensures { MatchResult result
        (λ p. word_parts mark word.now ≡ Some (p.0.now, p.1.now))
        (λ _. word_parts mark word.now ≡ None) }
{
    let (before, rest) = cut_at(word, mark);
    let Some(rest) = rest else {
        return Err(Misspelled);
    };
    let (after, more) = cut_at(rest, mark);
    match more {
        None => Ok((before, after)),
        Some(_) => Err(Misspelled),
    }
}

/// The id that the word is.
pub fn read_id(word: &[u8]) -> Result<Id, Misspelled>
    ensures found { IfOk result (λ id. word.now ≡ id_word id) }
    ensures range { IfOk result IsId }
    ensures gives { MatchResult result
        (λ id. word_id word.now ≡ Some id)
        (λ _. word_id word.now ≡ None) }
{
    if word == b"board".as_slice() {
        return Ok(Id::Board);
    }
    let (seat, count) = parts(word, b'.')?;
    let seat = number_of_word(seat, LAST_SEAT.into())? as u8;
    let count = number_of_word(count, u32::MAX.into())? as u32;
    Ok(Id::Made { seat, count })
}

/// The next word as an id.
pub fn id(words: &mut Parts<'_>) -> Result<Id, Misspelled>
    ensures found { IfOk result (λ id. words.old ≡ id_word id ∷ words.new) }
    ensures range { IfOk result IsId }
    ensures gives { ReadsAs result (first_by word_id words.old) words.new }
{
    let word = next_word(words)?;
    read_id(word)
}

/// The stamp of a seat's set, which is counted from 1.
fn stamp_of_set(seat: u8, count: u32) -> Result<u32, Misspelled>
    requires { (seat ≤ last_seat) × (count < stamp_limit) }
    ensures found { IfOk result (λ stamp. stamp_word stamp ≡ decimal seat ++ 58 ∷ decimal count) }
    ensures range { IfOk result IsStamp }
    ensures gives { MatchResult result
        (λ stamp. set_of seat count ≡ Some stamp) (λ _. set_of seat count ≡ None) }
{
    if count == 0 {
        Err(Misspelled)
    } else {
        Ok((u32::from(seat) + 1) * STAMP_LIMIT + count)
    }
}

/// The stamp that the word is.
fn read_stamp(word: &[u8]) -> Result<u32, Misspelled>
    ensures found { IfOk result (λ stamp. word.now ≡ stamp_word stamp) }
    ensures range { IfOk result IsStamp }
    ensures gives { MatchResult result
        (λ stamp. word_stamp word.now ≡ Some stamp)
        (λ _. word_stamp word.now ≡ None) }
{
    if word == b"-".as_slice() {
        return Ok(0);
    }
    let (seat, count) = parts(word, b':')?;
    let seat = number_of_word(seat, LAST_SEAT.into())? as u8;
    let count = number_of_word(count, (STAMP_LIMIT - 1).into())? as u32;
    stamp_of_set(seat, count)
}

/// The next word as a stamp.
pub fn stamp(words: &mut Parts<'_>) -> Result<u32, Misspelled>
    ensures found { IfOk result (λ stamp. words.old ≡ stamp_word stamp ∷ words.new) }
    ensures range { IfOk result IsStamp }
    ensures gives { ReadsAs result (first_by word_stamp words.old) words.new }
{
    let word = next_word(words)?;
    read_stamp(word)
}
