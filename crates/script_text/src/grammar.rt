use crate::cause::Cause;
use crate::parts::Parts;
use crate::preamble::Preamble;
use heap_model::Heap;

/// What tells one kind of text from another: which first lines it has, which heaps it may ask for, and its further lines.
pub trait Grammar {
    ghost use Rattle.std.specs.Prelude.{◌≡◌, ℕ, List, [], ◌++◌, Some, IfOk, OnOk, IfErr, IfSome};
    ghost use Rattle.script_text.specs.declared.preamble.Preamble.{Preamble};
    ghost use Rattle.script_text.specs.Judge.{Judge};
    ghost use Rattle.script_text.specs.Operands.{operands_fault};
    ghost use Rattle.script_text.specs.Preamble.{IsVersion};

    type Line: Drop;

    /// How its faults are found.
    ghost judge: { Self → Judge };

    /// Its first line, by the version.
    ghost header: { Self → ℕ → List ℕ };

    /// The words of a further line.
    ghost line_words: { Self → Self.Line → List (List ℕ) };

    /// A line that may stand behind the preamble.
    ghost may_follow: { Self → Preamble → Self.Line → Type 0 };

    /// The version that the first line tells, if it is one of these texts.
    fn version_of(&self, first: &[u8]) -> Option<u8>
        ensures value { result ≡ (judge self.now).version_of first.now }
        ensures found { IfSome result (λ version. first.now ≡ header self.now version) }
        ensures known { IfSome result IsVersion };

    /// Whether the heap may be asked for.
    fn takes(&self, heap: &Heap) -> bool
        ensures { result ≡ (judge self.now).takes heap.now };

    /// The line that the next words are; no fault is looked for after them.
    fn read_front(&self, words: &mut Parts<'_>, preamble: &Preamble) -> Result<Self::Line, Cause>
        ensures found { IfOk result (λ line. words.old ≡ line_words self.now line ++ words.new) }
        ensures range { IfOk result (may_follow self.now preamble.now) }
        ensures rest { OnOk result
            ((judge self.now).words_fault preamble.now words.old ≡ operands_fault [] words.new) }
        ensures fault { IfErr result
            (λ cause. (judge self.now).words_fault preamble.now words.old ≡ Some cause) };
}
