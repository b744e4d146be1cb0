ghost use Rattle.std.specs.Prelude.{◌≡◌, ◌+◌, ◌≤◌, true, None, Some, ◌∷◌, length, map, IfOk, OnOk, IfErr};
ghost use Rattle.std.specs.List.{AllByRecursion};
ghost use Rattle.script_text.specs.Faults.{first_fault, header_fault, line_fault, lines_fault, text_fault};
ghost use Rattle.script_text.specs.Grammar.{IsScript, IsText, most_lines};
ghost use Rattle.script_text.specs.Preamble.{IsPreamble};
ghost use Rattle.script_text.specs.Reading.{FailsBy, GivesOnly};
ghost use Rattle.script_text.specs.Text.{sentence};
ghost use Rattle.script_text.specs.Words.{heap_line};

use crate::cause::{Cause, LineFault, ScriptFault};
use crate::grammar::Grammar;
use crate::heap_line::read_heap;
use crate::line::read_line;
use crate::parts::Parts;
use crate::preamble::Preamble;
use crate::script::{Form, Script};
use crate::script_grammar::ScriptGrammar;
use crate::sequence::Sequence;
use std::alloc::Global;

/// The most lines of a text.
pub const MOST_LINES: u32 = 65_536;

/// The line of this number, which is counted before it is read.
fn read_counted<G: Grammar>(
    line: &[u8],
    number: u32,
    grammar: &G,
    preamble: &Preamble,
) -> Result<G::Line, LineFault>
    ensures found { IfOk result (λ read. line.now ≡ sentence (G.line_words grammar.now read)) }
    ensures range { IfOk result (G.may_follow grammar.now preamble.now) }
    ensures short { OnOk result (number ≤ most_lines) }
    ensures none { OnOk result (line_fault (G.judge grammar.now) preamble.now number line.now ≡ None) }
    ensures fault { IfErr result
        (λ fault. line_fault (G.judge grammar.now) preamble.now number line.now ≡ Some fault) }
{
    if number > MOST_LINES {
        return Err(Cause::TooManyLines.at(number));
    }
    read_line(line, grammar, preamble).map_err(|cause| cause.at(number))
}

/// The lines after the heap line.
fn read_lines<G: Grammar>(
    alloc: Global,
    lines: Parts<'_>,
    grammar: &G,
    preamble: &Preamble,
) -> Result<Sequence<G::Line>, ScriptFault>
    ensures found { IfOk result
        (λ read. lines.entry ≡ map (λ line. sentence (G.line_words grammar.now line)) read) }
    ensures range { IfOk result (AllByRecursion (G.may_follow grammar.now preamble.now)) }
    ensures short { IfOk result (λ read. length read + 2 ≤ most_lines) }
    ensures none { OnOk result (lines_fault (G.judge grammar.now) preamble.now 3 lines.entry ≡ None) }
    ensures fault { IfErr result
        (FailsBy (lines_fault (G.judge grammar.now) preamble.now 3 lines.entry)) }
{
    let mut read = Sequence::new(alloc);
    let mut number = 2;
    for line in lines {
        number += 1;
        read.push(read_counted(line, number, grammar, preamble)?)?;
    }
    Ok(read)
}

/// What the first two lines tell.
fn read_preamble<G: Grammar>(lines: &mut Parts<'_>, grammar: &G) -> Result<Preamble, LineFault>
    ensures found { IfOk result
        (λ told. lines.old ≡ G.header grammar.now told.version ∷ heap_line told ∷ lines.new) }
    ensures range { IfOk result IsPreamble }
    ensures version { IfOk result
        (λ told. (G.judge grammar.now).version_of (G.header grammar.now told.version) ≡ Some told.version) }
    ensures taken { IfOk result (λ told. (G.judge grammar.now).takes told.heap ≡ true) }
    ensures rest { IfOk result
        (λ told. header_fault (G.judge grammar.now) lines.old ≡ lines_fault (G.judge grammar.now) told 3 lines.new) }
    ensures fault { IfErr result
        (λ fault. header_fault (G.judge grammar.now) lines.old ≡ Some fault) }
{
    let Some(first) = lines.next() else {
        return Err(Cause::NoHeader.at(1));
    };
    let Some(version) = grammar.version_of(first) else {
        return Err(Cause::NoHeader.at(1));
    };
    let Some(second) = lines.next() else {
        return Err(Cause::BadHeap.at(2));
    };
    let Some(heap) = read_heap(second, version) else {
        return Err(Cause::BadHeap.at(2));
    };
    if !grammar.takes(&heap) {
        return Err(Cause::BadHeap.at(2));
    }
    Ok(Preamble { version, heap })
}

/// What the text tells, by its grammar: the preamble, and the lines behind it.
#[tactic(auto, unfolding(crate::specs::Faults::text_fault))]
pub fn read_text<G: Grammar>(
    alloc: Global,
    text: &[u8],
    grammar: &G,
) -> Result<(Preamble, Sequence<G::Line>), ScriptFault>
    ensures found { IfOk result (λ read.
        IsText (G.judge grammar.now).takes (G.header grammar.now) (G.line_words grammar.now) (G.may_follow grammar.now) text.now read.0 read.1) }
    // Its version is the one that the first line tells.
    ensures version { IfOk result (λ read.
        (G.judge grammar.now).version_of (G.header grammar.now read.0.version) ≡ Some read.0.version) }
    ensures none { OnOk result (text_fault (G.judge grammar.now) text.now ≡ None) }
    ensures fault { IfErr result (FailsBy (text_fault (G.judge grammar.now) text.now)) }
{
    let mut lines = Parts::lines(text);
    let preamble = read_preamble(&mut lines, grammar)?;
    let read = read_lines(alloc, lines, grammar, &preamble)?;
    Ok((preamble, read))
}

fn read(alloc: Global, text: &[u8], form: Form) -> Result<Script, ScriptFault>
    ensures found { IfOk result (IsScript form text.now) }
    ensures none { OnOk result (first_fault form text.now ≡ None) }
    ensures fault { IfErr result (FailsBy (first_fault form text.now)) }
{
    let (preamble, lines) = read_text(alloc, text, &ScriptGrammar { form })?;
    Ok(Script {
        version: preamble.version,
        heap: preamble.heap,
        lines,
    })
}

/// The script that the text is, in a form.
pub fn read_script(alloc: Global, text: &[u8], form: Form) -> Result<Script, ScriptFault>
    ensures found { IfOk result (IsScript form text.now) }
    ensures none { OnOk result (first_fault form text.now ≡ None) }
    ensures fault { IfErr result (FailsBy (first_fault form text.now)) }
    // It is that script alone, and a text with a fault is none.
    ensures only { GivesOnly (IsScript form text.now) result }
{
    read(alloc, text, form)
}
