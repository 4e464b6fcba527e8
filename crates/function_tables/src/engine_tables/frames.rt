//! Functions by their numbers.

ghost use Rattle.std.specs.Prelude.{◌≡◌, None, IfSome, slice_get};
ghost use Rattle.std.specs.Option.{option_copied};
ghost use Rattle.path_model.specs.CheckerGraphs.Graphs.{function_at};
ghost use Rattle.function_tables.specs.EngineTables.Known.{AreKnown, IsFrame, texts_in};

use crate::engine_tables::tables::Tables;
use crate::table::FunctionTable;
use indexmap::IndexSet;
use objects::Object;

/// A function, as far as an engine asks of it: its table, and the objects that are followed in it.
#[derive(Drop)]
pub struct Frame<'t, 'u, 'a> {
    pub table: &'t FunctionTable<'u, 'a>,
    pub objects: &'t IndexSet<Object>,
}

/// The item with a number, if there is one.
pub fn item<T>(items: &[T], number: u32) -> Option<&T>
    ensures { option_copied result ≡ slice_get items.now number }
{
    items.get(number as usize)
}

impl<'t, 'u, 'a> Tables<'t, 'u, 'a> {
    /// The function with a number, if there is one.
    pub fn frame(&self, number: u32) -> Option<Frame<'t, 'u, 'a>>
        ensures there { IfSome result (λ f. IsFrame self.now number f) }
        ensures missing { result ≡ None → AreKnown self.now → function_at (texts_in self.now) number ≡ None }
    {
        let table = item(self.functions, number)?;
        let objects = item(self.objects, number)?;
        Some(Frame { table, objects })
    }
}
