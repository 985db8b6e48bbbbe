// The laws by which the machine keeps step with the source.
ghost use Rattle.correctness.specs.Agreement.{Agreement, AgreementOfTrees};
ghost use Rattle.correctness.specs.Examples.{Examples};
ghost use Rattle.correctness.specs.Heights.{Heights};
ghost use Rattle.correctness.specs.Named.{CodeNamesItsOwnCells, NamesItsOwnCells};
ghost use Rattle.correctness.specs.Sessions.{KeepsStep, TreesKeepStep};

/// States what holds of the code of a source that keeps the rules, over a store with at least the source's cells
/// and a stack of at least its depth: the machine makes the source's writes in their order, ends only as the source
/// ends, and ends whenever the source does.
pub fn agreement_stands()
    ensures { Agreement }
{}

/// States that after every list of calls on the code of a source that keeps the rules, the cells, writes, ending,
/// height and steps are those of the source.
pub fn sessions_keep_step()
    ensures { KeepsStep }
{}

/// States the same as `agreement_stands` of every tree of statements, also of one that no source resolves to: each cell
/// that it names is one of the store's, and the stack is at least as long as its depth.
pub fn trees_agree()
    ensures { AgreementOfTrees }
{}

/// States the same as `sessions_keep_step` of every tree of statements, also of one that no source resolves to, and of
/// every number of cells that a session is started with: each cell that the tree names is below it.
pub fn trees_keep_step()
    ensures { TreesKeepStep }
{}

/// States that every step that does not end the run changes the number of words stacked as the table of pushes and
/// pops says. The depth of a code is counted by the same table.
pub fn heights_stand()
    ensures { Heights }
{}

/// States that a source that keeps the rules names its own cells only, so that it writes no others.
pub fn cells_are_within()
    ensures { NamesItsOwnCells }
{}

/// States that the code of a source that keeps the rules names the source's cells only.
pub fn cells_stand()
    ensures { CodeNamesItsOwnCells }
{}

/// States the runs of two sources on the machine, step by step and in a session, and what the theorem says of one
/// of them.
pub fn examples_stand()
    ensures { Examples }
{}
