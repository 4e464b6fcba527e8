//! Tables by the numbers of their functions.

ghost use Rattle.std.specs.Prelude.{◌≡◌, slice_get};
ghost use Rattle.std.specs.Option.{option_map};

use function_tables::FunctionTable;

/// The table of the function with a number, if there is one.
pub(crate) fn table_at<'t, 'u, 'a>(
    tables: &'t [FunctionTable<'u, 'a>],
    number: u32,
) -> Option<&'t FunctionTable<'u, 'a>>
    ensures { option_map (λ t. t.now) result ≡ slice_get tables.now number }
{
    tables.get(number as usize)
}
