ghost use Rattle.std.specs.Prelude.{◌≡◌, [], ◌∷◌, ◌++◌, OnOk};
ghost use Rattle.script_text.specs.Text.{words_with_spaces};
ghost use Rattle.reply_text.specs.write.Entries.{id_word, stamp_word};
ghost use Rattle.heap_queue.specs.QueueLines.{again_words, full_words, no_queue_words, put_reply_words, queued_words, take_reply_words, told_words};

use crate::replies::{PutReply, TakeReply};
use crate::told::Told;
use heap_model::limits::STAMP_LIMIT;
use heap_model::{Id, Memory, Value};
use script_text::{push_digits, push_named, push_number, push_word};

/// Appends a space and the id.
fn push_id(text: &mut Vec<u8>, id: Id) -> Result<(), Memory>
    ensures { OnOk result (text.new.items ≡ text.old.items ++ 32 ∷ id_word id) }
{
    let Id::Made { seat, count } = id else {
        return push_word(text, b"board");
    };
    push_number(text, seat.into())?;
    text.push(b'.')?;
    push_digits(text, count.into())
}

/// Appends a space and the stamp.
fn push_stamp(text: &mut Vec<u8>, stamp: u32) -> Result<(), Memory>
    ensures { OnOk result (text.new.items ≡ text.old.items ++ 32 ∷ stamp_word stamp) }
{
    if stamp == 0 {
        return push_word(text, b"-");
    }
    push_number(text, (stamp / STAMP_LIMIT).saturating_sub(1).into())?;
    text.push(b':')?;
    push_digits(text, (stamp % STAMP_LIMIT).into())
}

/// Appends the words of a value, each after a space.
fn push_value(text: &mut Vec<u8>, value: Value) -> Result<(), Memory>
    ensures { OnOk result (text.new.items ≡ text.old.items ++ words_with_spaces (queued_words value)) }
{
    match value {
        Value::Nil => push_word(text, b"nil"),
        Value::Number(n) => push_number(text, n.into()),
        Value::Object(id) => {
            push_word(text, b"object")?;
            push_id(text, id)
        }
    }
}

fn push_again(text: &mut Vec<u8>, stamp: u32) -> Result<(), Memory>
    ensures { OnOk result (text.new.items ≡ text.old.items ++ words_with_spaces (again_words stamp)) }
{
    push_word(text, b"again")?;
    push_stamp(text, stamp)
}

fn push_full(text: &mut Vec<u8>, need: u32, found: u32) -> Result<(), Memory>
    ensures { OnOk result (text.new.items ≡ text.old.items ++ words_with_spaces (full_words need found)) }
{
    push_word(text, b"full")?;
    push_named(text, b"need", need.into())?;
    push_named(text, b"found", found.into())
}

fn push_no_queue(text: &mut Vec<u8>) -> Result<(), Memory>
    ensures { OnOk result (text.new.items ≡ text.old.items ++ words_with_spaces no_queue_words) }
{
    push_word(text, b"no")?;
    push_word(text, b"queue")
}

fn push_put_reply(text: &mut Vec<u8>, reply: PutReply) -> Result<(), Memory>
    ensures { OnOk result (text.new.items ≡ text.old.items ++ words_with_spaces (put_reply_words reply)) }
{
    match reply {
        PutReply::Ok => push_word(text, b"ok"),
        PutReply::Again { stamp } => push_again(text, stamp),
        PutReply::Full { need, found } => push_full(text, need, found),
        PutReply::NoQueue => push_no_queue(text),
    }
}

fn push_take_reply(text: &mut Vec<u8>, reply: TakeReply) -> Result<(), Memory>
    ensures { OnOk result (text.new.items ≡ text.old.items ++ words_with_spaces (take_reply_words reply)) }
{
    match reply {
        TakeReply::Took => push_word(text, b"took"),
        TakeReply::Empty => push_word(text, b"empty"),
        TakeReply::Again { stamp } => push_again(text, stamp),
        TakeReply::NoQueue => push_no_queue(text),
    }
}

/// Appends the words of what a put or take came to, each after a space.
#[tactic(auto, using(crate::proofs::WrittenLines::words_appended))]
pub(crate) fn push_told(text: &mut Vec<u8>, told: Told) -> Result<(), Memory>
    ensures { OnOk result (text.new.items ≡ text.old.items ++ words_with_spaces (told_words told)) }
{
    match told {
        Told::Put { value, reply } => {
            push_word(text, b"put")?;
            push_value(text, value)?;
            push_word(text, b"=")?;
            push_put_reply(text, reply)
        }
        Told::Took { value } => {
            push_word(text, b"take")?;
            push_word(text, b"=")?;
            push_value(text, value)
        }
        Told::Take { reply } => {
            push_word(text, b"take")?;
            push_word(text, b"=")?;
            push_take_reply(text, reply)
        }
    }
}
