//! The words of a written type.

ghost use Rattle.std.specs.Prelude.{◌≤◌};

use c_tree::Keyword;

/// The first words of a basic type among specifiers. Five are kept, since no basic type has more than four.
#[derive(Drop)]
pub(crate) struct Words {
    pub all: [Keyword; 5],
    pub count: usize,
    ghost few: { count ≤ 5 },
}
