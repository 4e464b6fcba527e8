//! The tokens of a source, and where each stands.

ghost use Rattle.std.specs.Prelude.{◌≡◌, ◌+◌, ◌<◌, ◌≤◌, ◌^◌, ℕ, length, vec_len};
ghost use Rattle.c_tree.specs.TokenPlaces.{AreOfFile, Rises};
ghost use Rattle.c_lexer.specs.Tokens.{position_of, number_at};

use crate::fault::Spot;
use c_tree::{Place, Token};
use std::marker::Model;

/// The tokens of a source, in order, and where its bytes end.
#[derive(Drop)]
pub struct Tokens {
    all: Vec<Token>,
    end: Spot,
}

impl Model for Tokens {
    ghost use Rattle.std.specs.Prelude.{◌<◌, ◌^◌};
    ghost use Rattle.c_tree.specs.TokenPlaces.{AreOfFile, Rises};
    ghost use Rattle.c_lexer.specs.Tokens.{TokenList};

    ghost Value = { TokenList };

    ghost view = { λ t. record { all = t.all.items; end = t.end } };

    ghost invariant = { λ t. Rises 0 t.all.items t.end.place.token × AreOfFile t.end.place.file t.all.items × (t.end.place.token < 2 ^ 32) };
}

impl Tokens {
    /// These tokens, of a source whose bytes end there.
    pub(crate) fn new(all: Vec<Token>, end: Spot) -> Tokens
        requires rising { Rises 0 all.items end.place.token }
        requires of_file { AreOfFile end.place.file all.items }
        ensures all { result.all ≡ all.items }
        ensures end { result.end ≡ end }
    {
        Tokens { all, end }
    }

    /// The tokens.
    #[tactic(auto, using(crate::proofs::Rising::rises_count))]
    pub fn all(&self) -> &[Token]
        ensures all { result.now ≡ self.now.all }
        ensures rising { Rises 0 result.now self.now.end.place.token }
        ensures of_file { AreOfFile self.now.end.place.file result.now }
        ensures few { length result.now < 2 ^ 32 }
    {
        self.all.as_slice()
    }

    /// Where the bytes end. Its place has the number of the file, and as its token the number of all tokens that were read.
    pub fn end(&self) -> Spot
        ensures { result ≡ self.now.end }
    {
        self.end
    }

    /// The number of the presumed file's name, the presumed line and the column of the token with the number of this place, else of the
    /// end. The file of the place isn't looked at.
    pub fn line_of(&self, place: Place) -> (u32, u32, u32)
        ensures { result ≡ position_of self.now.all self.now.end place.token }
    {
        let all = self.all();
        let index = index_of(all, place.token);
        if index < all.len() && all[index].place.token == place.token {
            let token = &all[index];
            return (token.source, token.line, token.col);
        }
        (self.end.source, self.end.line, self.end.col)
    }
}

/// How many of the tokens have a smaller number.
fn index_of(tokens: &[Token], number: u32) -> usize
    requires { (high : ℕ) × Rises 0 tokens.now high }
    ensures within { result ≤ length tokens.now }
    ensures below { (k : ℕ) → k < result → number_at tokens.now k < number }
    ensures above { (k : ℕ) → result ≤ k → k < length tokens.now → number ≤ number_at tokens.now k }
{
    let mut low = 0;
    let mut high = tokens.len();
    'halving: while low < high {
        let middle = low + (high - low) / 2;
        if tokens[middle].place.token < number {
            low = middle + 1;
        } else {
            high = middle;
        }
    }
    low
}
