ghost use Rattle.std.specs.Prelude.{◌≡◌, ◌<◌, ◌==◌, List, [], ◌∷◌, length, IfSome, IsNone};
ghost use Rattle.std.specs.Option.{option_map_or};
ghost use Rattle.std.specs.List.{slice_split};
ghost use Rattle.std.specs.Str.Lines.{strip_carriage_return};
ghost use Rattle.text_lines.specs.Lines as spec;
ghost use Rattle.text_lines.specs.Pieces.{words_left, words_after};

/// The bytes before the first byte `at`, and those behind it where there is one.
pub fn cut(text: &[u8], at: u8) -> (&[u8], Option<&[u8]>)
    ensures shorter { IfSome result.1 (λ rest. length rest.now < length text.now) }
    ensures whole { IsNone result.1 → result.0.now ≡ text.now }
    ensures split { slice_split (λ b. b == at) text.now
        ≡ result.0.now ∷ option_map_or (λ rest. slice_split (λ b. b == at) rest.now) result.1 [] }
{
    for (i, byte) in text.iter().enumerate() {
        if *byte == at {
            return (&text[..i], Some(&text[i + 1..]));
        }
    }
    (text, None)
}

/// The first word of what is left of a line, and what is left behind it.
pub fn next_word(line: Option<&[u8]>) -> Option<(&[u8], Option<&[u8]>)>
    ensures { words_left line.entry ≡ words_after result }
{
    let mut rest = line;
    while let Some(bytes) = rest {
        let (word, behind) = cut(bytes, b' ');
        if !word.is_empty() {
            return Some((word, behind));
        }
        rest = behind;
    }
    None
}

/// The line without a byte 13 at its end.
pub fn without_return(line: &[u8]) -> &[u8]
    ensures { result.now ≡ strip_carriage_return line.now }
{
    match line {
        [front @ .., b'\r'] => front,
        _ => line,
    }
}

/// Whether the line is a comment.
pub fn is_comment(line: &[u8]) -> bool
    ensures { result ≡ spec.is_comment line.now }
{
    matches!(line, [b'#', ..])
}
