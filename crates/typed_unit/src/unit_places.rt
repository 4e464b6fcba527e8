//! Where the parts of a unit stand: its trees, the parts of each kind of node and the bodies of its functions; and which of them
//! have a type. What goes down the trees of a typed unit rests on these facts.

mod theorems;

pub use theorems::{
    bodies_stand, declarators_are_typed, expressions_are_typed, facts_agree, functions_stand,
    items_stand, next_stands, nodes_stand, parts_stand, parts_stand_by_case, trees_stand,
    typed_functions_stand,
};
