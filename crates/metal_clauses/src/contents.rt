//! What a clause holds: a declaration, a section, or nothing.

ghost use Rattle.std.specs.Prelude.{◌≡◌, ◌<◌, ◌^◌, length, IfOk};
ghost use Rattle.c_tree.specs.Symbol.{symbols_of};
ghost use Rattle.metal_grammar.specs.Ways.Steps as steps;
ghost use Rattle.metal_clauses.specs.MetalParts.Given.{Gives, IsReady, StaysReady};
ghost use Rattle.metal_written.specs.Sizes.{HasSizes};
ghost use Rattle.metal_written.specs.Written.{content_view};

use crate::metal_parts::{has_sign, read_declaration};
use crate::patterns::PatternReader;
use crate::sections::read_section;
use c_expr::ExprFault;
use c_tree::{Punctuator, Token};
use metal_written::Content;
use mx_base::Names;

/// Whether a section begins here: `:` or `.` stands behind the token in front.
fn begins_section(tokens: &[Token]) -> bool
    ensures { result ≡ steps.begins_section (symbols_of tokens.now) }
{
    match tokens {
        [] => false,
        [_, rest @ ..] => has_sign(Punctuator::Colon, rest) || has_sign(Punctuator::Dot, rest),
    }
}

/// The content in front; `alone` says that its clause is the only one.
pub(crate) fn read_content<'a>(
    reader: &mut PatternReader<'a>,
    names: &Names,
    alone: bool,
    tokens: &'a [Token],
) -> Result<(Content<'a>, &'a [Token]), ExprFault>
    requires ready { IsReady reader.old.types.now reader.old.next (length tokens.now) }
    requires few { length tokens.now < 2 ^ 31 }
    ensures found { Gives content_view result (steps.read_content names.now alone (symbols_of tokens.now)) }
    ensures sizes { IfOk result (λ r. HasSizes r.0) }
    ensures ready { StaysReady reader.old.types.now reader.new.types.now reader.old.next reader.new.next (length tokens.now) result }
{
    if alone && has_sign(Punctuator::CloseBrace, tokens) {
        return Ok((Content::Nothing, tokens));
    }
    if begins_section(tokens) {
        let (section, rest) = read_section(reader, tokens)?;
        return Ok((Content::Rules(section), rest));
    }
    let (declaration, rest) = read_declaration(reader.arena, names, tokens)?;
    Ok((Content::Declares(declaration), rest))
}
