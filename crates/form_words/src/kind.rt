ghost use Rattle.std.specs.Prelude.{◌≡◌, ◌≢◌, IfSome, IfNone};
ghost use Rattle.form_words.specs.Works.{kind_word};
ghost use Rattle.form_words.specs.declared.kind.TextKind.{TextKind as AKind};

/// A kind of text, as words name it.
#[derive(Clone, Copy, Debug, PartialEq, Eq)]
pub enum TextKind {
    Script,
    History,
}

impl TextKind {
    /// The kind that the word names.
    pub fn of(word: &str) -> Option<TextKind>
        ensures some { IfSome result (λ kind. word.now ≡ kind_word kind) }
        ensures none { IfNone result ((kind : AKind) → word.now ≢ kind_word kind) }
    {
        match word {
            "script" => Some(TextKind::Script),
            "history" => Some(TextKind::History),
            _ => None,
        }
    }
}
