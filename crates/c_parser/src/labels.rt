//! The labels of a function, which are names apart (ISO 9899:1990, 6.1.2.3).

ghost use Rattle.std.specs.Prelude.{◌≡◌, [], not, IfOk};
ghost use Rattle.c_tree.specs.Symbol.{symbol_of};
ghost use Rattle.c_grammar.specs.Names.{name_in};
ghost use Rattle.c_grammar.specs.UnitGrammar.Control.{one_name, has_name};
ghost use Rattle.c_parser.specs.Ways.Gathered.{with_label, gathered, known_if};

use c_tree::{Token, TokenKind};
use indexmap::IndexSet;
use std::alloc::{AllocError, Global};
use std::marker::Model;

/// Labels, in the order in which they came.
#[derive(Drop)]
pub(crate) struct Labels {
    names: IndexSet<u32>,
}

impl Model for Labels {
    ghost use Rattle.std.specs.Prelude.{List, ℕ};

    ghost Value = { List ℕ };

    ghost view = { λ l. l.names.keys };
}

impl Labels {
    /// No labels. No memory is taken yet.
    pub(crate) fn new(alloc: Global) -> Labels
        ensures { result ≡ [] }
    {
        Labels {
            names: IndexSet::new(alloc),
        }
    }

    /// Adds a label. Whether it is new.
    #[tactic(auto, using(crate::proofs::Gathering::known_names))]
    pub(crate) fn add(&mut self, name: u32) -> Result<bool, AllocError>
        ensures fresh { IfOk result (λ fresh. fresh ≡ not (has_name name self.old)) }
        ensures labels { IfOk result (λ fresh. self.new ≡ with_label self.old name fresh) }
    {
        Ok(self.names.insert(name)?)
    }

    /// Whether the label is among these.
    #[tactic(auto, using(crate::proofs::Gathering::known_names))]
    pub(crate) fn has(&self, name: u32) -> bool
        ensures { result ≡ has_name name self.now }
    {
        self.names.contains(&name)
    }
}

/// The name that a token is, if it is a word.
pub(crate) fn name_in(token: &Token) -> Option<u32>
    ensures { result ≡ name_in (symbol_of token.now) }
{
    match token.kind {
        TokenKind::Word(_) => Some(token.name),
        _ => None,
    }
}

/// Adds the label that a token is. Whether it is new.
#[tactic(auto, using(crate::proofs::Gathering::gathers))]
pub(crate) fn add_label(token: &Token, known: &mut Labels) -> Result<bool, AllocError>
    ensures { IfOk result (λ fresh. gathered known.old (one_name (name_in (symbol_of token.now))) ≡ known_if fresh known.new) }
{
    match name_in(token) {
        None => Ok(true),
        Some(name) => known.add(name),
    }
}
