ghost use Rattle.std.specs.Prelude.{◌≡◌, ◌∷◌, [], ◌==◌, MatchOption, position};
ghost use Rattle.std.specs.List.{slice_split};

fn first_mark(text: &[u8], mark: u8) -> Option<usize>
    ensures { result ≡ position (λ b. b == mark) text.now }
{
    text.iter().position(|b| *b == mark)
}

/// The bytes before the first mark, and those after it where there is one.
pub fn cut(text: &[u8], mark: u8) -> (&[u8], Option<&[u8]>)
    ensures { let parts = slice_split (λ b. b == mark) in MatchOption result.1
        (parts text.now ≡ result.0.now ∷ [])
        (λ rest. parts text.now ≡ result.0.now ∷ parts rest.now) }
{
    match first_mark(text, mark) {
        None => (text, None),
        Some(at) => {
            let (before, rest) = text.split_at(at);
            (before, Some(rest.split_at(1).1))
        }
    }
}
