ghost use Rattle.std.specs.Prelude.{◌≡◌, ℕ, ◌+◌, ◌<◌, ◌≤◌, None, Some, List, [], ◌∷◌, ◌++◌, length, map, IfOk, IfSome, OnOk, IfErr};
ghost use Rattle.std.specs.List.{AllByRecursion};
ghost use Rattle.script_text.specs.declared.script.Form.{Form};
ghost use Rattle.script_text.specs.Preamble.{IsPreamble, IsVersion};
ghost use Rattle.script_text.specs.Reading.{FailsBy, GivesOnly};
ghost use Rattle.script_text.specs.Words.{heap_line};
ghost use Rattle.reply_text.specs.declared.read.stage.Stage.TheVariants.{Ended};
ghost use Rattle.reply_text.specs.read.Body.{IsBody, lines_read};
ghost use Rattle.reply_text.specs.read.Faults.{first_history_fault, form_of, history_header_fault, history_lines_fault};
ghost use Rattle.reply_text.specs.read.Stages.{first_stage};
ghost use Rattle.reply_text.specs.History.{IsHistory, form_line, too_many};
ghost use Rattle.reply_text.specs.write.Lines.{history_line};
ghost use Rattle.reply_text.specs.Written.{HasText};

use crate::history::History;
use crate::read::body::Body;
use crate::read::line::read_line;
use crate::read::misspelled::Misspelled;
use crate::read::stage::Stage;
use script_text::{Cause, Form, LineFault, Parts, Preamble, ScriptFault, read_heap};
use std::alloc::Global;

/// The number of the first line that a history does not have.
const TOO_MANY: u32 = 4_000_000;

/// Adds the line of this number.
fn add_line(
    body: &mut Body,
    line: &[u8],
    number: u32,
    form: Form,
    preamble: &Preamble,
) -> Result<(), ScriptFault>
    requires few { number ≤ too_many }
    requires seats { 1 ≤ preamble.now.heap.seats }
    requires body { IsBody form preamble.now body.old }
    ensures found { OnOk result
        (map history_line (lines_read body.new) ≡ map history_line (lines_read body.old) ++ line.now ∷ []) }
    ensures counted { OnOk result
        (length (lines_read body.new) ≡ length (lines_read body.old) + 1) }
    ensures range { OnOk result (IsBody form preamble.now body.new) }
    ensures short { OnOk result (number < too_many) }
    ensures none { (rest : List (List ℕ)) → OnOk result
        (history_lines_fault form preamble.now body.old.stage number (line.now ∷ rest) ≡ history_lines_fault form preamble.now body.new.stage (number + 1) rest) }
    ensures fault { (rest : List (List ℕ)) →
        IfErr result (FailsBy (history_lines_fault form preamble.now body.old.stage number (line.now ∷ rest))) }
{
    let Ok(read) = read_line(line, form, preamble) else {
        return Err(Cause::BadEntry.at(number).into());
    };
    body.add(read, number)?;
    if number == TOO_MANY {
        return Err(Cause::HistoryLines.at(number).into());
    }
    Ok(())
}

/// The lines after the heap line.
fn read_body(
    alloc: Global,
    lines: Parts<'_>,
    form: Form,
    preamble: &Preamble,
) -> Result<Body, ScriptFault>
    requires { 1 ≤ preamble.now.heap.seats }
    ensures found { IfOk result (λ body. lines.entry ≡ map history_line (lines_read body)) }
    ensures range { IfOk result (IsBody form preamble.now) }
    ensures ended { IfOk result (λ body. body.stage ≡ Ended) }
    ensures short { IfOk result (λ body. length (lines_read body) + 2 < too_many) }
    ensures none { OnOk result (history_lines_fault form preamble.now (first_stage form) 3 lines.entry ≡ None) }
    ensures fault { IfErr result
        (FailsBy (history_lines_fault form preamble.now (first_stage form) 3 lines.entry)) }
{
    let mut body = Body::new(alloc, form);
    let mut number = 3;
    for line in lines {
        add_line(&mut body, line, number, form, preamble)?;
        number += 1;
    }
    if body.stage == Stage::Ended {
        Ok(body)
    } else {
        Err(Cause::NoEnd.at(number).into())
    }
}

/// The version and the form that the first line tells.
fn read_form(line: &[u8]) -> Option<(u8, Form)>
    ensures value { result ≡ form_of line.now }
    ensures found { IfSome result (λ told. line.now ≡ form_line told.0 told.1) }
    ensures known { IfSome result (λ told. IsVersion told.0) }
{
    if line == b"history 1 play".as_slice() {
        return Some((1, Form::Play));
    }
    if line == b"history 1 run".as_slice() {
        return Some((1, Form::Run));
    }
    if line == b"history 2 play".as_slice() {
        return Some((2, Form::Play));
    }
    if line == b"history 2 run".as_slice() {
        return Some((2, Form::Run));
    }
    None
}

/// The form of the first line, and what that and the second tell beside it.
fn read_head(lines: &mut Parts<'_>) -> Result<(Form, Preamble), LineFault>
    ensures found { IfOk result
        (λ head. lines.old ≡ form_line head.1.version head.0 ∷ heap_line head.1 ∷ lines.new) }
    ensures range { IfOk result (λ head. IsPreamble head.1) }
    ensures rest { IfOk result
        (λ head. history_header_fault lines.old ≡ history_lines_fault head.0 head.1 (first_stage head.0) 3 lines.new) }
    ensures fault { IfErr result (λ fault. history_header_fault lines.old ≡ Some fault) }
{
    let Some(first) = lines.next() else {
        return Err(Cause::NoHeader.at(1));
    };
    let Some((version, form)) = read_form(first) else {
        return Err(Cause::NoHeader.at(1));
    };
    let Some(second) = lines.next() else {
        return Err(Cause::BadHeap.at(2));
    };
    let Some(heap) = read_heap(second, version) else {
        return Err(Cause::BadHeap.at(2));
    };
    Ok((form, Preamble { version, heap }))
}

#[tactic(auto, unfolding(crate::specs::read::Faults::first_history_fault))]
fn read(alloc: Global, text: &[u8]) -> Result<History, ScriptFault>
    ensures found { IfOk result (IsHistory text.now) }
    ensures none { OnOk result (first_history_fault text.now ≡ None) }
    ensures fault { IfErr result (FailsBy (first_history_fault text.now)) }
{
    let mut lines = Parts::lines(text);
    let (form, preamble) = read_head(&mut lines)?;
    let body = read_body(alloc, lines, form, &preamble)?;
    Ok(History {
        version: preamble.version,
        form,
        heap: preamble.heap,
        entries: body.entries,
        mark: body.mark,
        end_used: body.end_used,
    })
}

/// The history that the text is.
pub fn read_history(alloc: Global, text: &[u8]) -> Result<History, ScriptFault>
    ensures found { IfOk result (IsHistory text.now) }
    ensures spelled { IfOk result (λ history. AllByRecursion (HasText history.version) history.entries) }
    ensures none { OnOk result (first_history_fault text.now ≡ None) }
    ensures fault { IfErr result (FailsBy (first_history_fault text.now)) }
    // It is that history alone, and a text with a fault is none.
    ensures only { GivesOnly (IsHistory text.now) result }
{
    read(alloc, text)
}
