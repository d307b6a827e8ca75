//! A search and a checker keep the same clauses: laws, as clauses of functions that do nothing.
ghost use Rattle.cdcl_lines.specs.Keeping.{
  OpeningIsRepresented,
  KeepIsRepresented,
  SameAreRepresented,
  ShownPasses,
  HintsAreThere,
  EmptyCloses,
  DropPasses,
  KeepsOneMore,
  KeepsOn,
};

/// The opening state represents a search without clauses.
pub fn opening_is_represented()
    ensures { OpeningIsRepresented }
{}

/// A search and a checker both take one more of a formula's clauses.
pub fn keep_is_represented()
    ensures { KeepIsRepresented }
{}

/// It doesn't matter which literals clauses watch.
pub fn same_are_represented()
    ensures { SameAreRepresented }
{}

/// The line of a clause that its hints prove passes, and the clause is kept.
pub fn shown_passes()
    ensures { ShownPasses }
{}

/// The hints that prove a clause are clauses of the search.
pub fn hints_are_there()
    ensures { HintsAreThere }
{}

/// A line that adds an empty clause closes the derivation.
pub fn empty_closes()
    ensures { EmptyCloses }
{}

/// A line that deletes kept clauses, each once, passes, and they aren't kept any more.
pub fn drop_passes()
    ensures { DropPasses }
{}

/// A formula's clauses are all kept after they are added one after the other.
pub fn keeps_one_more()
    ensures { KeepsOneMore }
{}

/// They stay kept as long as only later clauses are dropped.
pub fn keeps_on()
    ensures { KeepsOn }
{}
