ghost use Rattle.std.specs.Prelude.{◌≡◌, ◌≤◌, [], ◌∷◌, ◌++◌, count_by, decimal, length, map, IfOk, OnOk};
ghost use Rattle.script_text.specs.Text.{text_of};
ghost use Rattle.script_text.specs.Words.{heap_line};
ghost use Rattle.heap_queue.specs.QueueLines.{call_line, full_lines, has_put, has_taken, left_in, left_line, queue_lines};
ghost use Rattle.heap_queue.specs.QueueText.{queue_preamble};

use crate::replies::PutReply;
use crate::reply_words::push_told;
use crate::told::{Told, ToldCall};
use heap_model::{Heap, Memory};
use script_text::{Preamble, push_digits, push_heap_line, push_number};
use std::alloc::Global;

/// Whether it is a put that came through.
fn has_put(told: Told) -> bool
    ensures { result ≡ has_put told }
{
    matches!(
        &told,
        Told::Put {
            reply: PutReply::Ok,
            ..
        }
    )
}

/// Whether it is a take that got a value.
fn has_taken(told: Told) -> bool
    ensures { result ≡ has_taken told }
{
    matches!(&told, Told::Took { .. })
}

/// How many values are left behind these puts and takes.
fn left_in(calls: &[ToldCall]) -> u64
    ensures { result ≡ left_in calls.now }
{
    let mut puts = 0u64;
    let mut takes = 0u64;
    for call in calls {
        puts += u64::from(has_put(call.told));
        takes += u64::from(has_taken(call.told));
    }
    puts.saturating_sub(takes)
}

/// Appends the line of a put or take, and its line feed.
#[tactic(auto, using(crate::proofs::WrittenLines::spelling))]
fn push_call(text: &mut Vec<u8>, call: &ToldCall) -> Result<(), Memory>
    ensures { OnOk result (text.new.items ≡ text.old.items ++ (call_line call.now ++ 10 ∷ [])) }
{
    push_digits(text, call.seat.into())?;
    push_told(text, call.told)?;
    text.push(b'\n')?;
    Ok(())
}

/// Appends the line of each put and take.
fn push_calls(text: &mut Vec<u8>, calls: &[ToldCall]) -> Result<(), Memory>
    ensures { OnOk result (text.new.items ≡ text.old.items ++ text_of (map call_line calls.now)) }
{
    for call in calls {
        push_call(text, call)?;
    }
    Ok(())
}

/// Appends the line of how many values are left, and its line feed.
#[tactic(auto, using(crate::proofs::WrittenLines::spelling))]
fn push_left(text: &mut Vec<u8>, left: u64) -> Result<(), Memory>
    ensures { OnOk result (text.new.items ≡ text.old.items ++ (left_line left ++ 10 ∷ [])) }
{
    text.extend_from_slice(b"left")?;
    push_number(text, left)?;
    text.push(b'\n')?;
    Ok(())
}

/// What came of the puts and takes of a queue on this heap, as a text: a line for each, and how many values are left.
pub fn render_queue(alloc: Global, heap: Heap, calls: &[ToldCall]) -> Result<Vec<u8>, Memory>
    ensures { IfOk result (λ text. text.items ≡ text_of (queue_lines heap calls.now)) }
{
    let mut text = Vec::from_slice(alloc, b"queue 1\n")?;
    push_heap_line(&mut text, &Preamble { version: 2, heap })?;
    push_calls(&mut text, calls)?;
    push_left(&mut text, left_in(calls))?;
    text.extend_from_slice(b"end used 0\n")?;
    Ok(text)
}

/// The text that tells that a heap has no room for a queue.
pub fn render_full(alloc: Global, heap: Heap) -> Result<Vec<u8>, Memory>
    ensures { IfOk result (λ text. text.items ≡ text_of (full_lines heap)) }
{
    let mut text = Vec::from_slice(alloc, b"queue 1\n")?;
    push_heap_line(&mut text, &Preamble { version: 2, heap })?;
    text.extend_from_slice(b"full need 1 found 0\n")?;
    Ok(text)
}
