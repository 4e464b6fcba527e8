//! Tuples and contexts once more.

ghost use Rattle.std.specs.Prelude.{◌≡◌};

use crate::edges::Context;
use objects::copy;
use state_tuples::Tuple;

/// An equal tuple.
pub fn copy_tuple(tuple: &Tuple) -> Tuple
    ensures { result ≡ tuple.now }
{
    let Some(object) = &tuple.object else {
        return Tuple {
            global: tuple.global,
            object: None,
            state: None,
        };
    };
    Tuple {
        global: tuple.global,
        object: Some(copy(object)),
        state: tuple.state,
    }
}

/// An equal context.
pub fn copy_context(context: &Context) -> Context
    ensures { result ≡ context.now }
{
    Context {
        function: context.function,
        entry: copy_tuple(&context.entry),
    }
}
