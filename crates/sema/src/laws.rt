// The laws of the definitions.
ghost use Rattle.sema.specs.Laws.{Laws};
ghost use Rattle.sema.specs.Rules.{AdmitsExactly};
ghost use Rattle.sema.specs.Deciding.{LeastDecides};
ghost use Rattle.sema.specs.Verdicts.{FaultsStand, RefusedExactly};

/// Each stage finds the same in the list of a program as in its tree, and the typed list is that of the typed tree.
/// Any list has at most 64 names, no two of them are alike, and their cells do not overlap.
pub fn check_stands()
    ensures { Laws }
{}

/// The stages admit a source exactly where it keeps the rules.
pub fn rules_stand()
    ensures { AdmitsExactly }
{}

/// One of the faults of a stage decides: the one at the smallest place, and of several there the one with the lowest
/// number.
pub fn least_stands()
    ensures { LeastDecides }
{}

/// Each fault of names, types and sizes stands exactly where its rule is broken.
pub fn faults_stand()
    ensures { FaultsStand }
{}

/// A source whose tokens are a program is refused by the fault that decides in it, and it is accepted exactly where
/// it has no fault.
pub fn refused_exactly()
    ensures { RefusedExactly }
{}
