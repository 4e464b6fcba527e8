//! How much a checker may have, and names that are declared twice.

ghost use Rattle.std.specs.Prelude.{◌≡◌, ◌+◌, ◌*◌, ◌++◌, ◌<◌, ◌^◌, [], map, length, IfOk};
ghost use Rattle.std.specs.Option.{option_map};
ghost use Rattle.metal_grammar.specs.Faults.{passing, repeated};
ghost use Rattle.metal_grammar.specs.Rules.{declared_names, names_of_content, behind_head, is_among};
ghost use Rattle.metal_written.specs.Sizes.{ClauseHasSizes, ClausesHaveSizes, size_of_all};
ghost use Rattle.metal_written.specs.Written.{content_view, clause_view, clause_views};
ghost use Rattle.metal_numbers.specs.MetalDeclared.DeclaredNames.{declared_name, declared_pair, every_other};
ghost use Rattle.metal_numbers.specs.MetalDeclared.Limits.{counting, limit_of};

use crate::metal_declared::which::Which;
use bumpalo::collections::into_bump_slice;
use c_tree::Arena;
use metal_written::{Clause, Content, head_size};
use std::alloc::AllocError;

/// The most state variables of a checker.
const MOST_VARIABLES: usize = 8;

/// The most holes of a checker.
const MOST_HOLES: usize = 16;

/// The most rules of a checker.
const MOST_RULES: usize = 1000;

fn limit_of(which: Which) -> usize
    ensures { result ≡ limit_of which }
{
    match which {
        Which::Variables => MOST_VARIABLES,
        Which::Holes => MOST_HOLES,
        Which::Rules => MOST_RULES,
    }
}

/// How many of these a clause with this content declares.
#[tactic(auto, using(crate::proofs::MetalDeclared::Counts::counts))]
fn count_in(which: Which, content: Content<'_>) -> usize
    ensures { result ≡ counting which (content_view content.entry) }
{
    match content {
        Content::Nothing => 0,
        Content::Declares(declaration) => match which {
            Which::Variables => if declaration.state.is_some() {
                declaration.names.len()
            } else {
                0
            },
            Which::Holes => declaration.names.len(),
            Which::Rules => 0,
        },
        Content::Rules(section) => match which {
            Which::Rules => section.rules.len(),
            _ => 0,
        },
    }
}

/// The position of the first clause behind which there are more than the limit.
#[tactic(auto, using(crate::proofs::MetalDeclared::InLimits::passes))]
pub fn passing(which: Which, clauses: &[Clause]) -> Option<u32>
    requires sizes { ClausesHaveSizes clauses.now }
    requires few { size_of_all clauses.now < 2 ^ 31 }
    ensures { result ≡ passing (counting which) (limit_of which) 0 0 (clause_views clauses.now) }
{
    let mut count = 0;
    let mut position = 0;
    for clause in clauses {
        count += count_in(which, clause.content);
        if count > limit_of(which) {
            return Some(position);
        }
        position += clause.size;
    }
    None
}

/// A declared name, and its position.
#[derive(Clone, Copy)]
pub struct Declared {
    pub name: u32,
    pub position: u32,
}

/// Adds names, of which the first stands there, with a comma between two.
#[tactic(auto, using(crate::proofs::MetalDeclared::InNames::declared))]
fn add_names<'a>(
    all: &mut Vec<Declared, &'a Arena>,
    names: &[u32],
    first: u32,
) -> Result<(), AllocError>
    requires { first + 2 * length names.now < 2 ^ 32 }
    ensures { IfOk result (λ _. map declared_pair all.new.items ≡ map declared_pair all.old.items ++ every_other first names.now) }
{
    let mut position = first;
    for name in names {
        all.push(Declared {
            name: *name,
            position,
        })?;
        position += 2;
    }
    Ok(())
}

/// Adds the names that a clause declares, where the clause begins there.
#[tactic(auto, using(crate::proofs::MetalDeclared::InNames::declared))]
fn add_declared<'a>(
    all: &mut Vec<Declared, &'a Arena>,
    clause: &Clause,
    position: u32,
) -> Result<(), AllocError>
    requires sizes { ClauseHasSizes clause.now }
    requires room { position + clause.now.size < 2 ^ 31 }
    ensures { IfOk result (λ _. map declared_pair all.new.items ≡ map declared_pair all.old.items ++ names_of_content (behind_head position (clause_view clause.now)) (content_view clause.now.content)) }
{
    match clause.content {
        Content::Declares(declaration) => add_names(
            all,
            declaration.names,
            position + head_size(clause) + declaration.before,
        ),
        Content::Nothing => Ok(()),
        Content::Rules(_) => Ok(()),
    }
}

/// The declared names of a text, in its order.
#[tactic(auto, using(crate::proofs::MetalDeclared::InNames::declared))]
fn declared_names<'a>(arena: &'a Arena, clauses: &[Clause]) -> Result<&'a [Declared], AllocError>
    requires sizes { ClausesHaveSizes clauses.now }
    requires few { size_of_all clauses.now < 2 ^ 31 }
    ensures { IfOk result (λ all. map declared_pair all.now ≡ declared_names 0 (clause_views clauses.now)) }
{
    let mut all = Vec::new(arena);
    let mut position = 0;
    for clause in clauses {
        add_declared(&mut all, clause, position)?;
        position += clause.size;
    }
    Ok(into_bump_slice(all))
}

/// Whether the name is among these.
#[tactic(auto, using(metal_written::proofs::Any::anys))]
fn is_declared(before: &[Declared], name: u32) -> bool
    ensures { result ≡ is_among (map declared_name before.now) name }
{
    for other in before {
        if other.name == name {
            return true;
        }
    }
    false
}

/// The first name that stands among those before it. It is quick where a checker has few holes.
#[tactic(auto, using(crate::proofs::MetalDeclared::InNames::repeats))]
fn first_repeated(all: &[Declared]) -> Option<Declared>
    ensures { option_map declared_pair result ≡ repeated [] (map declared_pair all.now) }
{
    let mut index = 0;
    while index < all.len() {
        let declared = all[index];
        if is_declared(&all[..index], declared.name) {
            return Some(declared);
        }
        index += 1;
    }
    None
}

/// The first name that is declared a second time.
pub fn repeated(arena: &Arena, clauses: &[Clause]) -> Result<Option<Declared>, AllocError>
    requires sizes { ClausesHaveSizes clauses.now }
    requires few { size_of_all clauses.now < 2 ^ 31 }
    ensures { IfOk result (λ found. option_map declared_pair found ≡ repeated [] (declared_names 0 (clause_views clauses.now))) }
{
    Ok(first_repeated(declared_names(arena, clauses)?))
}
