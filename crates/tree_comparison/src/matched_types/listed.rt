//! The words of a basic type among specifiers (ISO 9899:1990, 6.5.2).

ghost use Rattle.std.specs.Prelude.{◌≡◌, ◌∷◌, ◌++◌, [], take};
ghost use Rattle.c_tree.specs.Forget.{view, list_view};
ghost use Rattle.hole_matching.specs.Written.{words_of};
ghost use Rattle.tree_comparison.specs.MatchedTypes.Words.{words_in, word_of};

use crate::matched_types::words::Words;
use c_tree::{Keyword, Kind, Part, TokenKind, Tree, Trees};

impl Words {
    /// No word.
    pub fn new() -> Self
        ensures { words_in result ≡ [] }
    {
        Words {
            all: [Keyword::Int; 5],
            count: 0,
        }
    }

    /// Keeps a word, if there is room for it.
    pub fn push(&mut self, word: Keyword)
        ensures { words_in self.new ≡ take 5 (words_in self.old ++ (word ∷ [])) }
    {
        if self.count < 5 {
            self.all[self.count] = word;
            self.count += 1;
        }
    }

    /// The words in order.
    pub fn as_slice(&self) -> &[Keyword]
        ensures { result.now ≡ words_in self.now }
    {
        &self.all[..self.count]
    }
}

// The keyword that a specifier is, if it is one.
fn keyword_in(item: &Tree) -> Option<Keyword>
    ensures { result ≡ word_of (view item.now) }
{
    match &item.kind {
        Kind::Part(Part::SpecWord { word }) => match word.kind {
            TokenKind::Keyword(keyword) => Some(keyword),
            _ => None,
        },
        _ => None,
    }
}

/// The first five words of a basic type among these specifiers.
pub(crate) fn words_of(items: &Trees) -> Words
    ensures { words_in result ≡ take 5 (words_of (list_view items.now)) }
{
    let mut words = Words::new();
    for item in items.all {
        if let Some(keyword) = keyword_in(item) {
            words.push(keyword);
        }
    }
    words
}
