ghost use Rattle.std.specs.Prelude.{◌≡◌, None, MatchOption, bytes_eq};
ghost use Rattle.std.specs.Map.{lookup};
ghost use Rattle.script_text.specs.Names.{name_text};
ghost use Rattle.script_text.specs.Operands.{commands};

/// The commands of a seat that a script may have.
#[derive(Clone, Copy, Debug, PartialEq, Eq)]
pub enum Name {
    New,
    Array,
    Get,
    Set,
    Cas,
    Num,
    Nil,
    Copy,
    Same,
    Len,
    Poll,
    Collect,
}

/// The command that the word names.
pub fn read_name(word: &[u8]) -> Option<Name>
    ensures { MatchOption result
        (lookup (bytes_eq word.now) commands ≡ None)
        (λ name. word.now ≡ name_text name) }
{
    match word {
        b"new" => Some(Name::New),
        b"array" => Some(Name::Array),
        b"get" => Some(Name::Get),
        b"set" => Some(Name::Set),
        b"cas" => Some(Name::Cas),
        b"num" => Some(Name::Num),
        b"nil" => Some(Name::Nil),
        b"copy" => Some(Name::Copy),
        b"same" => Some(Name::Same),
        b"len" => Some(Name::Len),
        b"poll" => Some(Name::Poll),
        b"collect" => Some(Name::Collect),
        _ => None,
    }
}
