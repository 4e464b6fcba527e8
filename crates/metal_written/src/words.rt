//! How names and strings are spelled.

ghost use Rattle.std.specs.Prelude.{◌≡◌, cond};
ghost use Rattle.metal_grammar.specs.Words.{spelled, is_spelled, contents_of};
ghost use Rattle.metal_written.specs.Written.{literal_view};

use crate::written::Literal;
use mx_base::Names;

/// The bytes of a name. They are none where no name has this number.
pub fn spelled(names: &Names, name: u32) -> &[u8]
    ensures { result.now ≡ spelled names.now name }
{
    if name < names.len() {
        names.text_of(name)
    } else {
        &[]
    }
}

/// Whether the name is spelled so.
pub fn is_spelled(names: &Names, text: &[u8], name: u32) -> bool
    ensures { result ≡ is_spelled names.now text.now name }
{
    spelled(names, name) == text
}

/// The number of bytes up to the contents of a literal: its quote, and maybe `L`.
pub fn up_to_contents(literal: Literal) -> usize
    ensures { result ≡ cond literal.wide 2 1 }
{
    if literal.wide { 2 } else { 1 }
}

/// The bytes between the quotes of a literal, as they stand.
pub fn contents_of(names: &Names, literal: Literal) -> &[u8]
    ensures { result.now ≡ contents_of names.now (literal_view literal) }
{
    let text = spelled(names, literal.name);
    let from = up_to_contents(literal);
    if text.len() <= from {
        return &[];
    }
    &text[from..text.len() - 1]
}
