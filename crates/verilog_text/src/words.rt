//! Verilog: whether a name is among the words of a text.

ghost use Rattle.std.specs.Prelude.{◌≡◌, ◌∷◌, ◌++◌, ◌==◌, not};
ghost use Rattle.std.specs.List.{AllPass, slice_split};
ghost use Rattle.verilog_text.specs.Names.{is_blank};
ghost use Rattle.verilog_text.specs.inner.Words.{StopsAt, has_word, words_of};

/// Whether a name is one of the words of a text, which have a blank between them.
pub(crate) fn has_word(text: &[u8], name: &[u8]) -> bool
    ensures { result ≡ has_word text.now name.now }
{
    let mut left = Some(text);
    while let Some(bytes) = left {
        let (word, after) = first_word(bytes);
        if word == name {
            return true;
        }
        left = after;
    }
    false
}

// The first word of a text, and what comes after the blank after it, if there is one.
fn first_word(text: &[u8]) -> (&[u8], Option<&[u8]>)
    ensures { slice_split is_blank text.now ≡ result.0.now ∷ words_of result.1 }
{
    let (word, after) = split_before(text, b' ');
    match after.split_first() {
        Some((_, rest)) => (word, Some(rest)),
        None => (word, None),
    }
}

// The bytes before the first one of a kind, and the rest.
fn split_before(bytes: &[u8], end: u8) -> (&[u8], &[u8])
    ensures parts { bytes.now ≡ result.0.now ++ result.1.now }
    ensures front { AllPass (λ b. not (b == end)) result.0.now }
    ensures rest { StopsAt (λ b. not (b == end)) result.1.now }
{
    let at = bytes.iter().position(|byte| *byte == end);
    bytes.split_at(at.unwrap_or(bytes.len()))
}
