ghost use Rattle.std.specs.Prelude.{◌≡◌, None, Some, IfOk, IfErr, OnOk};
ghost use Rattle.script_text.specs.Text.{sentence, words_of};

use crate::cause::Cause;
use crate::grammar::Grammar;
use crate::parts::Parts;
use crate::preamble::Preamble;

/// The line behind this preamble that the bytes are.
pub fn read_line<G: Grammar>(
    line: &[u8],
    grammar: &G,
    preamble: &Preamble,
) -> Result<G::Line, Cause>
    ensures found { IfOk result (λ read. line.now ≡ sentence (G.line_words grammar.now read)) }
    ensures range { IfOk result (G.may_follow grammar.now preamble.now) }
    ensures none { OnOk result
        ((G.judge grammar.now).words_fault preamble.now (words_of line.now) ≡ None) }
    ensures fault { IfErr result
        (λ cause. (G.judge grammar.now).words_fault preamble.now (words_of line.now) ≡ Some cause) }
{
    let mut words = Parts::words(line);
    let read = grammar.read_front(&mut words, preamble)?;
    if words.next().is_some() {
        return Err(Cause::TooManyWords);
    }
    Ok(read)
}
