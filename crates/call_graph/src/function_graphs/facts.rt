//! What is known of the trees of a unit in a program.

ghost use Rattle.std.specs.Prelude.{◌≡◌, ◌<◌, length};
ghost use Rattle.std.specs.Option.{option_map};
ghost use Rattle.c_tree.specs.Views.{node_of};
ghost use Rattle.type_values.specs.Vars.{cvar_of};
ghost use Rattle.flow_graph.specs.Values.{variable_in};
ghost use Rattle.call_graph.specs.FunctionGraphs.Known.{facts_in, known_by};
ghost use Rattle.call_graph.specs.FunctionGraphs.Variables.{automatic, variable_of};
ghost use Rattle.typed_unit.specs.Tables.{table_of};

use crate::function_graphs::unit_facts::UnitFacts;
use crate::programs::Program;
use c_tree::{Place, Tree};
use flow_graph::{Facts, Variable};
use type_values::Var;
use typed_unit::TypedUnit;

/// The variable of the events that this one is, if it has automatic storage and is no parameter (ISO 9899:1990, 6.1.2.4).
fn automatic(var: Var) -> Option<Variable>
    ensures { option_map variable_in result ≡ automatic (cvar_of var) }
{
    match var {
        Var::Local { file, token, name } => Some(Variable {
            place: Place { file, token },
            name,
        }),
        _ => None,
    }
}

/// The variable that a declarator of a unit declares, if it has automatic storage.
fn declared(unit: &TypedUnit, declarator: &Tree) -> Option<Variable>
    ensures { option_map variable_in result ≡ variable_of (table_of unit.now.table) (node_of declarator.now) }
{
    match unit.declared(declarator) {
        Some(var) => automatic(var),
        None => None,
    }
}

impl<'p, 'u, 'a> UnitFacts<'p, 'u, 'a> {
    /// The unit with the number of this file.
    pub fn new(program: &'p Program<'u, 'a>, file: u16) -> Self
        requires { file < length program.now.units.items }
        ensures { known_by result ≡ facts_in program.now.units.items file }
    {
        let unit = program.unit(file);
        UnitFacts {
            program,
            unit,
            file,
        }
    }
}

impl<'p, 'u, 'a> Facts for UnitFacts<'p, 'u, 'a> {
    ghost use Rattle.call_graph.specs.FunctionGraphs.Known.{known_by};

    ghost known = { known_by };

    fn has_body(&self, call: &Tree) -> bool {
        self.program.body_called(self.file, call).is_some()
    }

    fn variable_of(&self, declarator: &Tree) -> Option<Variable> {
        declared(self.unit, declarator)
    }
}
