//! The words that ask for a generation.

ghost use Rattle.std.specs.Prelude.{◌≡◌, ℕ, map, string_bytes, None, IfSome};
ghost use Rattle.command_words.specs.Generation.{begins_with_count, IsCount, IsGeneration};
ghost use Rattle.command_words.specs.Words.{Request, IsRequest};

/// Whether the first byte is a digit from 1 to 9.
fn begins_with_count(word: &[u8]) -> bool
    ensures { result ≡ begins_with_count word.now }
{
    match word {
        [b'1'..=b'9', ..] => true,
        _ => false,
    }
}

/// The number from 1 to 9999 that a word spells.
fn count_of(word: &str) -> Option<u32>
    ensures spelled { IfSome result (λ n. IsCount word.now n) }
    ensures none { result ≡ None → (n : ℕ) → IsCount word.now n → ⊥ }
{
    if !begins_with_count(word.as_bytes()) {
        return None;
    }
    let Ok(count) = word.parse::<u32>() else {
        return None;
    };
    if count > 9999 {
        return None;
    }
    Some(count)
}

/// How many functions the words ask to generate; `None` exactly where they don't ask for it. Words that do are no request. It takes
/// no memory.
pub fn read_generation(words: &[String]) -> Option<u32>
    ensures generation { IfSome result (λ n. IsGeneration (map string_bytes words.now) n) }
    ensures only { IfSome result (λ n. (m : ℕ) → IsGeneration (map string_bytes words.now) m → m ≡ n) }
    ensures none { result ≡ None → (n : ℕ) → IsGeneration (map string_bytes words.now) n → ⊥ }
    ensures apart { IfSome result (λ n. (request : Request) → IsRequest (map string_bytes words.now) request → ⊥) }
{
    let [option, count] = words else {
        return None;
    };
    if option.as_str() != "--generate" {
        return None;
    }
    count_of(count.as_str())
}
