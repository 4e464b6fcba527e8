//! Numbers for paths: when the tables of a program stand for a checker and a program of the theory of paths, and that the edges of the tables are
//! then the entries of the theory.
#![tactic(auto)]
