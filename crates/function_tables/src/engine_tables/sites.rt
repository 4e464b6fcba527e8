//! Calls with what they pass.

ghost use Rattle.std.specs.Prelude.{◌≡◌, ◌<◌, [], None, Some, length, IfSome, slice_get};
ghost use Rattle.c_tree.specs.Views.{node_of};
ghost use Rattle.type_rules.specs.Functions.{Defined};
ghost use Rattle.type_rules.specs.Options.{if_there};
ghost use Rattle.path_model.specs.CheckerPrograms.Texts.{callee_of, function_of, functions_in, site};
ghost use Rattle.function_tables.specs.EngineTables.Known.{texts_in};
ghost use Rattle.refine_restore.specs.Sites.{formals_of};
ghost use Rattle.block_flows.specs.TupleFlows.Passed.{IsSite};

use crate::engine_tables::tables::Tables;
use c_tree::Tree;
use call_graph::FnId;
use refine_restore::Site;
use type_values::Var;

impl<'u, 'a> Tables<'_, 'u, 'a> {
    // The formals of the function with a body that a call in a file calls; none where there is no such function.
    fn formals(&self, file: u16, call: &Tree) -> &'u [Option<Var>]
        requires { file < length self.now.program.now.units.items }
        ensures { formals_of result.now ≡ if_there (callee_of (texts_in self.now) file (node_of call.now)) [] (λ d. d.formals) }
    {
        match self.program.body_called(file, call) {
            Some(f) => self.program.function(f).formals.as_slice(),
            None => &[],
        }
    }

    /// A call in the function with a number, with what it passes; none where there is no such function.
    pub fn site<'s>(&'s self, function: u32, call: &'s Tree<'a>) -> Option<Site<'s, 'a>>
        ensures there { IfSome result (λ s. (d : Defined) → slice_get (functions_in (texts_in self.now)) function ≡ Some d → IsSite self.now.depth s (site self.now.depth (texts_in self.now) (function_of d) (node_of call.now))) }
        ensures missing { result ≡ None → slice_get (functions_in (texts_in self.now)) function ≡ None }
    {
        if function >= self.program.count() {
            return None;
        }
        let defined = self.program.function(FnId { number: function });
        let unit = self.program.unit(defined.file);
        let formals = self.formals(defined.file, call);
        Some(Site {
            call,
            unit,
            formals,
        })
    }
}
