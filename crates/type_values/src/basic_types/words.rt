//! Lists of keywords that are the same in any order.

ghost use Rattle.std.specs.Prelude.{◌≡◌};
ghost use Rattle.c_grammar.specs.Symbols.{same_keyword};
ghost use Rattle.c_grammar.specs.Specifiers.{occurrences, as_often, same_words};

use c_tree::Keyword;

/// Whether it is the same keyword.
fn same_keyword(word: Keyword, other: Keyword) -> bool
    ensures { result ≡ same_keyword word other }
{
    word as u8 == other as u8
}

/// How often a keyword stands among these.
fn occurrences(word: Keyword, words: &[Keyword]) -> usize
    ensures { result ≡ occurrences word words.now }
{
    let mut count = 0;
    for found in words {
        count += usize::from(same_keyword(word, *found));
    }
    count
}

/// Whether each of the first words stands as often among the second.
fn as_often(words: &[Keyword], others: &[Keyword]) -> bool
    ensures { result ≡ as_often words.now words.now others.now }
{
    for word in words {
        if occurrences(*word, words) != occurrences(*word, others) {
            return false;
        }
    }
    true
}

/// Whether the first words are the second in any order.
pub fn same_words(words: &[Keyword], others: &[Keyword]) -> bool
    ensures { result ≡ same_words words.now others.now }
{
    words.len() == others.len() && as_often(words, others)
}
