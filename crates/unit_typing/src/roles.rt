//! What a node is where it stands, as far as its kind doesn't say it.

ghost use Rattle.std.specs.Prelude.{◌≡◌, cond};
ghost use Rattle.c_tree.specs.Views.{node_of, nodes_of};
ghost use Rattle.type_rules.specs.Declarators.{is_bare};
ghost use Rattle.type_rules.specs.Moves.{mention};
ghost use Rattle.type_rules.specs.Roles.{owner_of, inner_role, specs_role, item_role};
ghost use Rattle.type_rules.specs.Roles as held;
ghost use Rattle.type_rules.specs.Rows.{is_callee};
ghost use Rattle.unit_typing.specs.Mentions.{mention_of};
ghost use Rattle.unit_typing.specs.Roles.{role_of};

use crate::declarators::is_bare;
use crate::mentions::Mention;
use crate::storage::Storage;
use c_tree::{Tree, Trees};
use type_values::Ty;

/// What a node is where it stands.
#[derive(Clone, Copy)]
pub enum Role<'a> {
    Plain,
    /// What is called.
    Callee,
    /// Specifiers that are all there is of a declaration, or the one specifier of them.
    Alone,
    /// The declarator of a declaration, with what its specifiers say.
    Declares { storage: Storage, ty: Ty<'a> },
    /// The declarator of the definition of a function.
    Defines { storage: Storage, ty: Ty<'a> },
    /// The declarator of a parameter.
    Formal { ty: Ty<'a> },
    /// The declarator of a member of the structure or union of this number.
    Member { owner: u32, ty: Ty<'a> },
    /// A declaration of members there.
    Inside { owner: u32 },
    /// On the way to the parameters of the function that is defined, and the list of them.
    Formals,
    /// The body of a function.
    Body,
}

impl<'a> Role<'a> {
    pub fn is_callee(self) -> bool
        ensures { result ≡ is_callee (role_of self.entry) }
    {
        match self {
            Role::Callee => true,
            _ => false,
        }
    }

    /// The structure or union whose members are declared.
    pub fn owner(self) -> u32
        ensures { result ≡ owner_of (role_of self.entry) }
    {
        match self {
            Role::Inside { owner } => owner,
            _ => 0,
        }
    }

    // Whether the parameters of the function that is defined are on the way to the name.
    fn leads_to_formals(self) -> bool
        ensures { inner_role (role_of self.entry) ≡ cond result held.Formals held.Plain }
    {
        match self {
            Role::Defines { .. } | Role::Formals => true,
            _ => false,
        }
    }

    /// The role of what stands nearer to the name: the own parameters of a function are those beside it.
    pub fn inner(self) -> Role<'a>
        ensures { role_of result ≡ inner_role (role_of self.entry) }
    {
        match self {
            Role::Defines { .. } | Role::Formals => Role::Formals,
            _ => Role::Plain,
        }
    }

    /// The role of a declarator in parentheses. Where that is a name alone, the parameters stand beside it.
    pub fn toward(self, inner: &Tree) -> Role<'a>
        ensures { role_of result ≡ cond (is_bare (node_of inner.now)) held.Plain (inner_role (role_of self.entry)) }
    {
        if self.leads_to_formals() && !is_bare(inner) {
            Role::Formals
        } else {
            Role::Plain
        }
    }

    /// The role of the suffix beside a declarator in parentheses.
    pub fn beside(self, inner: &Tree) -> Role<'a>
        ensures { role_of result ≡ cond (is_bare (node_of inner.now)) (inner_role (role_of self.entry)) held.Plain }
    {
        if self.leads_to_formals() && is_bare(inner) {
            Role::Formals
        } else {
            Role::Plain
        }
    }

    /// The role of each of these specifiers: one alone is all that they are.
    #[tactic(auto, using(crate::proofs::Bare::counted))]
    pub fn of_item(self, items: &Trees) -> Role<'a>
        ensures { role_of result ≡ item_role (role_of self.entry) (nodes_of items.now) }
    {
        if items.all.len() == 1 {
            self
        } else {
            Role::Plain
        }
    }

    /// How a tag in this role is mentioned.
    pub fn mention(self) -> Mention
        ensures { mention_of result ≡ mention (role_of self.entry) }
    {
        match self {
            Role::Alone => Mention::Alone,
            _ => Mention::Plainly,
        }
    }
}

/// The role of the specifiers of a declaration of these.
#[tactic(auto, using(crate::proofs::Bare::counted))]
pub fn specs_role<'a>(declarators: &Trees) -> Role<'a>
    ensures { role_of result ≡ specs_role (nodes_of declarators.now) }
{
    if declarators.all.is_empty() {
        Role::Alone
    } else {
        Role::Plain
    }
}
