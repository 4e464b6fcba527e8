//! What a word is by its first and last bytes.

ghost use Rattle.std.specs.Prelude.{◌≡◌};
ghost use Rattle.command_words.specs.Words.{starts_with_minus, is_option, is_checker_word};

/// Whether a FILE word names a checker: its last six bytes are `.metal`.
pub fn is_checker(word: &str) -> bool
    ensures { result ≡ is_checker_word word.now }
{
    let bytes = word.as_bytes();
    bytes.len() >= 6 && &bytes[bytes.len() - 6..] == b".metal".as_slice()
}

/// Whether a word begins with a minus sign.
pub(crate) fn starts_with_minus(word: &[u8]) -> bool
    ensures { result ≡ starts_with_minus word.now }
{
    match word {
        [b'-', ..] => true,
        _ => false,
    }
}

/// Whether a word begins with a minus sign and isn't that alone.
pub(crate) fn is_option(word: &[u8]) -> bool
    ensures { result ≡ is_option word.now }
{
    match word {
        [b'-', _, ..] => true,
        _ => false,
    }
}
