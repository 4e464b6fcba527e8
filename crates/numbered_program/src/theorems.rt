// The theorem on the rows of a program, in the contract of a function that does nothing: a call of it hands the fact to a caller's proof.

ghost use Rattle.numbered_program.specs.Theorems.{RowsStandForPrograms};

/// Rows that are, part by part, those of the tables of a program under a checker stand for it, where each followed object is in its list once:
/// no two numbers stand for one thing, and rows, endings, calls and the edges with which paths begin are those of the program's flow graphs.
pub fn rows_stand_for_programs()
    ensures { RowsStandForPrograms }
{}
