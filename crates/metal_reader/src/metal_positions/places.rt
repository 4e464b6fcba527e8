//! The places of rules, without the text of their clauses.

ghost use Rattle.std.specs.Prelude.{◌≡◌, ◌+◌, ◌<◌, ◌^◌, ◌&&◌, ◌||◌, cond, nat_eq, List};
ghost use Rattle.std.specs.Option.{option_map};
ghost use Rattle.c_tree.specs.declared.punctuator.Punctuator.TheVariants as marks;
ghost use Rattle.c_tree.specs.Symbol.{symbol_of, symbols_of};
ghost use Rattle.c_grammar.specs.Symbols.{is_sign};
ghost use Rattle.metal_grammar.specs.Grammar.{IsText};
ghost use Rattle.metal_grammar.specs.Rules.{rules_of, rule_position};
ghost use Rattle.metal_grammar.specs.Written.{Clause as WrittenClause};
ghost use Rattle.metal_clauses.specs.Places.{place_in};
ghost use Rattle.metal_reader.specs.MetalPositions.Positions.{begins_behind};

use c_lexer::Tokens;
use c_tree::{Place, Punctuator, Token, TokenKind};
use metal_clauses::open_behind;
use mx_base::Names;

/// Whether the token is `:` or `|`.
fn is_in_front_of_rule(token: &Token) -> bool
    ensures { result ≡ (is_sign marks.Colon (symbol_of token.now) || is_sign marks.Bar (symbol_of token.now)) }
{
    match token.kind {
        TokenKind::Punct(found) => Punctuator::Colon as u8 == found as u8
            || Punctuator::Bar as u8 == found as u8,
        _ => false,
    }
}

/// Whether a rule begins behind a token, before which so many braces are open: a source's `:`, or `|` between rules.
fn begins_rule(depth: u32, token: &Token) -> bool
    ensures { result ≡ begins_behind depth (symbol_of token.now) }
{
    depth == 1 && is_in_front_of_rule(token)
}

/// Whether the rule with this number begins behind a token, where a rule may begin there and so many begin before it.
fn is_reached(begins: bool, number: u32, rule: u16) -> bool
    requires { number + 1 < 2 ^ 32 }
    ensures { result ≡ (begins && nat_eq (number + 1) rule) }
{
    begins && number + 1 == u32::from(rule)
}

/// How many rules begin up to a token, where a rule may begin behind it and so many begin before it.
fn counted(number: u32, begins: bool) -> u32
    requires { number + 1 < 2 ^ 32 }
    ensures { result ≡ cond begins (number + 1) number }
{
    if begins { number + 1 } else { number }
}

/// The place of the first token of the rule with a number, in a text whose clauses can all be read. It takes no memory.
pub fn rule_place(tokens: &Tokens, rule: u16, names: &Names) -> Option<Place>
    requires text { (cs : List WrittenClause) × IsText names.now cs (symbols_of tokens.now.all) }
    ensures { (cs : List WrittenClause) → IsText names.now cs (symbols_of tokens.now.all) → result ≡ option_map (place_in tokens.now.end.place.file) (rule_position rule (rules_of cs)) }
{
    let mut depth = 0;
    let mut number = 0;
    let all = tokens.all();
    let mut index = 0;
    while index < all.len() {
        let begins = begins_rule(depth, &all[index]);
        if is_reached(begins, number, rule) {
            return Some(Place {
                file: tokens.end().place.file,
                token: index as u32 + 1,
            });
        }
        number = counted(number, begins);
        depth = open_behind(depth, &all[index]);
        index += 1;
    }
    None
}
