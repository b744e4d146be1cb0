ghost use Rattle.std.specs.Prelude.{◌≡◌, [], ◌∷◌, ◌++◌, decimal, OnOk};
ghost use Rattle.script_text.specs.Text.{words_with_spaces};
ghost use Rattle.reply_text.specs.write.Entries.{id_word, stamp_word, value_words, waits_words, lack_words, reply_words, turn_reply_words};

use heap_model::limits::STAMP_LIMIT;
use heap_model::{Id, Memory, Reply, TurnReply, Value};
use script_text::{push_digits, push_named, push_number, push_word};

/// Appends a space and the id.
pub fn push_id(text: &mut Vec<u8>, id: Id) -> Result<(), Memory>
    ensures { OnOk result (text.new.items ≡ text.old.items ++ 32 ∷ id_word id) }
{
    let Id::Made { seat, count } = id else {
        return push_word(text, b"board");
    };
    push_number(text, seat.into())?;
    text.push(b'.')?;
    push_digits(text, count.into())
}

/// Appends a space and the stamp.
pub fn push_stamp(text: &mut Vec<u8>, stamp: u32) -> Result<(), Memory>
    ensures { OnOk result (text.new.items ≡ text.old.items ++ 32 ∷ stamp_word stamp) }
{
    if stamp == 0 {
        return push_word(text, b"-");
    }
    push_number(text, (stamp / STAMP_LIMIT).saturating_sub(1).into())?;
    text.push(b':')?;
    push_digits(text, (stamp % STAMP_LIMIT).into())
}

fn push_value(text: &mut Vec<u8>, value: Value) -> Result<(), Memory>
    ensures { OnOk result (text.new.items ≡ text.old.items ++ words_with_spaces (value_words value)) }
{
    match value {
        Value::Nil => push_word(text, b"nil"),
        Value::Number(n) => push_named(text, b"number", n.into()),
        Value::Object(id) => {
            push_word(text, b"object")?;
            push_id(text, id)
        }
    }
}

fn push_waits(text: &mut Vec<u8>, seat: u8, answered: u64, phase: u64) -> Result<(), Memory>
    ensures { OnOk result
        (text.new.items ≡ text.old.items ++ words_with_spaces (waits_words seat answered phase)) }
{
    push_named(text, b"waits", seat.into())?;
    push_named(text, b"answered", answered)?;
    push_named(text, b"phase", phase)
}

/// Appends the words of a refusal for want of space, each after a space.
fn push_lack(
    text: &mut Vec<u8>,
    kind: &[u8],
    need: u32,
    shown: &[u8],
    number: u32,
) -> Result<(), Memory>
    ensures { OnOk result
        (text.new.items ≡ text.old.items ++ words_with_spaces (lack_words kind.now need shown.now number)) }
{
    push_word(text, kind)?;
    push_named(text, b"need", need.into())?;
    push_named(text, shown, number.into())
}

/// Appends the words of a reply, each after a space.
pub fn push_reply(text: &mut Vec<u8>, reply: &Reply) -> Result<(), Memory>
    ensures { OnOk result (text.new.items ≡ text.old.items ++ words_with_spaces (reply_words reply.now)) }
{
    match *reply {
        Reply::Made(id) => push_id(text, id),
        Reply::Got { value, stamp } => {
            push_value(text, value)?;
            push_word(text, b"at")?;
            push_stamp(text, stamp)
        }
        Reply::Was(stamp) => {
            push_word(text, b"was")?;
            push_stamp(text, stamp)
        }
        Reply::Now(stamp) => {
            push_word(text, b"now")?;
            push_stamp(text, stamp)
        }
        Reply::Done => push_word(text, b"ok"),
        Reply::Yes => push_word(text, b"yes"),
        Reply::No => push_word(text, b"no"),
        Reply::Length(n) => push_number(text, n.into()),
        Reply::Phase(p) => push_number(text, p),
        Reply::Cycle(j) => push_named(text, b"cycle", j),
        Reply::Waits {
            seat,
            answered,
            phase,
        } => push_waits(text, seat, answered, phase),
        Reply::NoObject => {
            push_word(text, b"no")?;
            push_word(text, b"object")
        }
        Reply::NoField => {
            push_word(text, b"no")?;
            push_word(text, b"field")
        }
        Reply::Full { need, found } => push_lack(text, b"full", need, b"found", found),
        Reply::SpineFull { need, used } => push_lack(text, b"spine", need, b"used", used),
    }
}

/// Appends the words of a reply to the collector's command, each after a space.
pub fn push_turn_reply(text: &mut Vec<u8>, reply: &TurnReply) -> Result<(), Memory>
    ensures { OnOk result (text.new.items ≡ text.old.items ++ words_with_spaces (turn_reply_words reply.now)) }
{
    match *reply {
        TurnReply::Done => push_word(text, b"done"),
        TurnReply::Cycle(j) => push_named(text, b"cycle", j),
        TurnReply::Waits {
            seat,
            answered,
            phase,
        } => push_waits(text, seat, answered, phase),
    }
}
