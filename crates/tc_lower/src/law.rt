//! What holds of the code of every program, and of its names.
ghost use Rattle.std.specs.Prelude.{ℕ, ◌≤◌, ◌++◌, List};
ghost use Rattle.tc_code.specs.tc_limits.declared.limits.TheConstants.{CELLS};
ghost use Rattle.tc_code.specs.Lawful.{IsLawful};
ghost use Rattle.tc_names.specs.Names.{meaning_in, own_declarations, program_declarations};
ghost use Rattle.tc_tree.specs.Counts.{cells};
ghost use Rattle.tc_tree.specs.Grammar.{Body, Program};
ghost use Rattle.tc_tree.specs.Numbers.{HasInts};
ghost use Rattle.tc_tree.specs.declared.expression.Name.{Name};
ghost use Rattle.tc_lower.specs.Kinds.{Agree};
ghost use Rattle.tc_lower.specs.Lowering.{code_of};
ghost use Rattle.tc_lower.specs.Things.{thing_in_scope, own_things, program_things};

/// The code of a program whose cells fit and whose numbers are ints is lawful, whatever its names.
pub fn code_is_lawful()
    ensures { (source : List ℕ) (p : Program) → cells p.globals ≤ CELLS → HasInts p → IsLawful (code_of source p) }
{}

/// A name in a body denotes a thing of the kind that the rules for names give it, and a name
/// without a declaration denotes nothing. So if a program keeps those rules, each use of a name has
/// its code.
pub fn names_stand_for_what_they_mean()
    ensures { (source : List ℕ) (p : Program) (parameters : List Name) (b : Body) (x : Name)
        → Agree (meaning_in source (own_declarations parameters b.locals ++ program_declarations p) x)
        (thing_in_scope source (own_things parameters b.locals) (program_things p.globals p.threads) x) }
{}
