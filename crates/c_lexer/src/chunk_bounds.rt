//! Where the tokens of a file are cut into declarations and functions.

ghost use Rattle.std.specs.Prelude.{◌≡◌, ◌+◌, ◌<◌, ◌≤◌, ◌^◌, ◌↔◌, length, IsTrue, IfOk};
ghost use Rattle.c_lexer.specs.CReading.Strip.{is_close_paren};
ghost use Rattle.c_lexer.specs.CReading.Chunks.{depth_behind, AreChunks, IsCut};
ghost use Rattle.c_lexer.specs.Nests.{ends_here, body_behind};

use crate::kinds::{closes, is_close_brace, is_close_paren, is_open_brace, is_semicolon, opens};
use crate::tokens::Tokens;
use c_tree::TokenKind;
use std::alloc::{AllocError, Global};

/// What is known at a position of the brackets before it.
#[derive(Clone, Copy)]
struct Nesting {
    depth: u32,
    /// Whether a `)` stands directly before.
    behind_paren: bool,
    /// Inside brackets, whether the bracket that last left depth 0 is a `{` directly behind a `)`.
    in_body: bool,
}

impl Nesting {
    /// Whether a chunk ends behind a token of this kind.
    fn ends(self, kind: TokenKind) -> bool
        ensures { result ≡ ends_here self.depth self.in_body kind }
    {
        (is_semicolon(kind) && self.depth == 0)
            || (is_close_brace(kind) && self.depth == 1 && self.in_body)
    }

    /// Behind a token of this kind.
    fn behind(self, kind: TokenKind) -> Nesting
        requires { self.depth < 4294967295 }
        ensures depth { result.depth ≡ depth_behind self.depth kind }
        ensures paren { result.behind_paren ≡ is_close_paren kind }
        ensures body { result.in_body ≡ body_behind self.depth self.behind_paren self.in_body kind }
        ensures rise { result.depth ≤ self.depth + 1 }
    {
        let depth = if opens(kind) {
            self.depth + 1
        } else if closes(kind) {
            self.depth.saturating_sub(1)
        } else {
            self.depth
        };
        let in_body = if self.depth == 0 {
            self.behind_paren && is_open_brace(kind)
        } else {
            self.in_body
        };
        Nesting {
            depth,
            behind_paren: is_close_paren(kind),
            in_body,
        }
    }
}

/// The bounds of the chunks in these stripped tokens, each from a number of tokens before it up to a number of tokens before
/// its end.
pub fn chunks(alloc: Global, tokens: &Tokens) -> Result<Vec<(u32, u32)>, AllocError>
    ensures { IfOk result (λ bounds. AreChunks tokens.now.all bounds.items) }
{
    let all = tokens.all();
    let mut bounds = Vec::new(alloc);
    let mut start = 0;
    let mut nesting = Nesting {
        depth: 0,
        behind_paren: false,
        in_body: false,
    };
    let mut index = 0;
    'cutting: while index < all.len() {
        let kind = all[index].kind;
        let ends = nesting.ends(kind);
        nesting = nesting.behind(kind);
        index += 1;
        if ends {
            bounds.push((start as u32, index as u32))?;
            start = index;
        }
    }
    if start < all.len() {
        bounds.push((start as u32, index as u32))?;
    }
    Ok(bounds)
}

/// Whether the last of these stripped tokens ends a chunk, so that no token is left behind the chunks.
pub fn is_cut(tokens: &Tokens) -> bool
    ensures { IsTrue result ↔ IsCut tokens.now.all }
{
    let all = tokens.all();
    let mut ends = true;
    let mut nesting = Nesting {
        depth: 0,
        behind_paren: false,
        in_body: false,
    };
    let mut index = 0;
    'going: while index < all.len() {
        let kind = all[index].kind;
        ends = nesting.ends(kind);
        nesting = nesting.behind(kind);
        index += 1;
    }
    ends
}
