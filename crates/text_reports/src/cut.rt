//! The cutting of a text into its words.
ghost use Rattle.std.specs.Prelude.{◌≡◌, ℕ, ◌<◌, ◌≤◌, false, not, [], ◌∷◌, length, slice_index};
ghost use Rattle.std.specs.Prelude.{MatchOption, IfSome};
ghost use Rattle.text_reports.specs.TextKey.{IsWord, is_blank, words_of};

/// The first word of a text and what follows it, where the text has a word.
pub(crate) fn first_word(text: &str) -> Option<(&str, &str)>
    ensures words { MatchOption result (words_of text.now ≡ [])
        (λ w. words_of text.now ≡ w.0.now ∷ words_of w.1.now) }
    ensures word { IfSome result (λ w. IsWord w.0.now) }
{
    let text = without_blanks(text);
    if text.is_empty() {
        return None;
    }
    Some(text.split_at(front_len(text.as_bytes(), false)))
}

/// The text from its first word on.
fn without_blanks(text: &str) -> &str
    ensures words { words_of result.now ≡ words_of text.now }
    ensures begins { 0 < length result.now → is_blank (slice_index result.now 0) ≡ false }
{
    let (_, rest) = text.split_at(front_len(text.as_bytes(), true));
    rest
}

/// How many bytes at the front are blank, or how many are not.
fn front_len(text: &[u8], blank: bool) -> usize
    ensures within { result ≤ length text.now }
    ensures front { (k : ℕ) → k < result → is_blank (slice_index text.now k) ≡ blank }
    ensures behind { result < length text.now → is_blank (slice_index text.now result) ≡ not blank }
{
    for (place, byte) in text.iter().enumerate() {
        if is_blank(*byte) != blank {
            return place;
        }
    }
    text.len()
}

fn is_blank(byte: u8) -> bool
    ensures { result ≡ is_blank byte }
{
    byte == b' ' || byte == b'\n'
}
