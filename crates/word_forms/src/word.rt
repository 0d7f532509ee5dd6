ghost use Rattle.std.specs.Prelude.{◌≡◌};
ghost use Rattle.std.specs.List.{list_all};
ghost use Rattle.word_forms.specs.Words as words;

/// Whether a byte may begin a word: a letter of ASCII or `_`. docs/FORMATS.md, "Query", has the rule.
pub fn is_first(byte: u8) -> bool
    ensures { result ≡ words.is_first byte }
{
    byte.is_ascii_alphabetic() || byte == b'_'
}

/// Whether a byte may stand later in a word: a letter or a digit of ASCII, or `_`.
pub fn is_later(byte: u8) -> bool
    ensures { result ≡ words.is_later byte }
{
    byte.is_ascii_alphanumeric() || byte == b'_'
}

// Whether each byte may stand later in a word.
fn are_later(bytes: &[u8]) -> bool
    ensures { result ≡ list_all words.is_later bytes.now }
{
    bytes.iter().all(|byte| is_later(*byte))
}

/// Whether the text is a word: a letter of ASCII or `_`, followed by letters, digits or `_`. docs/FORMATS.md,
/// "Query", has the rule.
pub fn is_word(text: &[u8]) -> bool
    ensures { result ≡ words.is_word text.now }
{
    match text {
        [first, rest @ ..] => is_first(*first) && are_later(rest),
        [] => false,
    }
}
