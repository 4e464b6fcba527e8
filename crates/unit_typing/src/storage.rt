//! How a declared name is stored (ISO 9899:1990, 6.5.1).

ghost use Rattle.std.specs.Prelude.{◌≡◌};
ghost use Rattle.std.specs.Option.{option_map};
ghost use Rattle.c_tree.specs.Views.{node_of, nodes_of};
ghost use Rattle.type_rules.specs.Options.{◌>?◌};
ghost use Rattle.type_rules.specs.Specified.{keyword_of, keyword_in, storage_word, storage_among, storage_of};
ghost use Rattle.unit_typing.specs.Storage.{storage_seen};

use c_tree::{Keyword, Kind, Part, Specifier, TokenKind, Tree, Trees};

/// How a name is stored. `auto` and `register` change nothing here.
#[derive(Clone, Copy)]
pub enum Storage {
    Unmarked,
    Typedef,
    Extern,
    Static,
}

/// The keyword that a token is.
pub(crate) fn keyword_of(kind: TokenKind) -> Option<Keyword>
    ensures { result ≡ keyword_of kind }
{
    match kind {
        TokenKind::Keyword(word) => Some(word),
        _ => None,
    }
}

/// The keyword that a specifier is.
pub(crate) fn keyword_in(item: &Tree) -> Option<Keyword>
    ensures { result ≡ keyword_in (node_of item.now) }
{
    match &item.kind {
        Kind::Part(Part::SpecWord { word }) => keyword_of(word.kind),
        _ => None,
    }
}

fn storage_word(word: Keyword) -> Option<Storage>
    ensures { option_map storage_seen result ≡ storage_word word }
{
    match word {
        Keyword::Typedef => Some(Storage::Typedef),
        Keyword::Extern => Some(Storage::Extern),
        Keyword::Static => Some(Storage::Static),
        _ => None,
    }
}

/// The storage that a specifier says.
fn storage_in(item: &Tree) -> Option<Storage>
    ensures { option_map storage_seen result ≡ keyword_in (node_of item.now) >? storage_word }
{
    match keyword_in(item) {
        Some(word) => storage_word(word),
        None => None,
    }
}

/// The first storage that one of these specifiers says.
#[tactic(auto, using(crate::proofs::Steps::steps))]
fn storage_among(items: &Trees) -> Option<Storage>
    ensures { option_map storage_seen result ≡ storage_among (nodes_of items.now) }
{
    for item in items.all {
        if let Some(storage) = storage_in(item) {
            return Some(storage);
        }
    }
    None
}

/// How specifiers say that a name is stored.
pub fn storage_of(specs: &Tree) -> Storage
    ensures { storage_seen result ≡ storage_of (node_of specs.now) }
{
    match &specs.kind {
        Kind::Specifier(Specifier::Specs { items }) => match storage_among(items) {
            Some(storage) => storage,
            None => Storage::Unmarked,
        },
        _ => Storage::Unmarked,
    }
}
