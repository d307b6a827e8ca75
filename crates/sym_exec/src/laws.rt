//! Laws about symbolic execution. Each law is the contract of a function with an empty body.
ghost use Rattle.std.specs.Prelude.{◌≡◌, ◌<◌, ℕ, ℤ, List, Some, length};
ghost use Rattle.std.specs.FinMap as fin;
ghost use Rattle.std.specs.List.{All};
ghost use Rattle.int_ops.specs.Arith.{IsInt};
ghost use Rattle.tc_base.specs.Buffers.{BufferOps};
ghost use Rattle.tc_base.specs.Names.{Name};
ghost use Rattle.tc_base.specs.States.{State, Thread};
ghost use Rattle.tc_base.specs.declared.moves.Move.{Move};
ghost use Rattle.tc_code.specs.Code.{Code};
ghost use Rattle.tc_code.specs.Lawful.{IsLawful};
ghost use Rattle.tc_code.specs.Run.{run};
ghost use Rattle.int_ops.specs.Updates.{replaced};
ghost use Rattle.run_laws.specs.Alone.{Alone};
ghost use Rattle.run_laws.specs.Ints.{PassesInts};
ghost use Rattle.path_walk.specs.Paths.{Paths};
ghost use Rattle.sym_terms.specs.Terms.{AreTerms};
ghost use Rattle.sym_terms.specs.Values.{value_of};
ghost use Rattle.sym_terms.specs.declared.node.Node.{Node};
ghost use Rattle.sym_exec.specs.Alone.{StandsFor, Tells};
ghost use Rattle.sym_exec.specs.Executed.{executed};
ghost use Rattle.sym_exec.specs.Ints.{AreInts, HasInt, exchanged};
ghost use Rattle.sym_exec.specs.Making.{replaced_term};
ghost use Rattle.sym_exec.specs.Runs.{ThreadTells};
ghost use Rattle.sym_exec.specs.Thread.{Doing, Route};

/// If a thread follows the places of a path, each slot has the value of its term, given the values
/// that its loads take. Each branch and each site over expressions has its term's outcome: the
/// outcome is true, or the site passes, exactly when the term isn't 0.
///
/// This holds for any part of a path, from any execution that agrees with the thread at its start.
pub fn executions_tell()
    ensures { (r : Route) (loads : List ℤ) (places : List ℕ) (d : Doing) (a : Alone)
        → IsLawful r.code → StandsFor r loads places d a → Tells r loads places d a }
{}

/// The same holds in every run, under every memory model. If a thread was created with arguments
/// and has followed the places since, each slot has the value of its term. The terms of the
/// arguments have the values that were handed over. The memory model must return only ints if it
/// was given only ints; all three models do.
pub fn threads_tell<B>()
    ensures { (ops : BufferOps B) (code : Code) (moves : List Move) (s : State B) (n : Name) (t : Thread B)
        → PassesInts ops → IsLawful code → run ops code moves ≡ Some s → fin.get s.threads n ≡ Some t → ThreadTells ops code moves n t }
{}

/// The bitwise expression of a compare-and-exchange gives the cell's value after it: the new value
/// if the cell had the expected one, and its old value otherwise. The term built for it has this
/// value.
pub fn exchanges_replace()
    ensures values { (v e f : ℤ) → IsInt v → IsInt f → exchanged v e f ≡ replaced v e f }
    ensures terms { (nodes : List Node) (loads : List ℤ) (v e f : ℕ)
        → AreTerms nodes → AreInts nodes loads → v < length nodes → e < length nodes → f < length nodes
        → let x = replaced_term nodes v e f in
        value_of x.nodes loads x.term ≡ replaced (value_of nodes loads v) (value_of nodes loads e) (value_of nodes loads f) }
{}

/// If all constants and all values that the loads take are ints, the value of every term is an int.
pub fn values_are_ints()
    ensures { (nodes : List Node) (loads : List ℤ) (id : ℕ) → AreInts nodes loads → IsInt (value_of nodes loads id) }
{}

/// In the paths of lawful code every constant is an int, if those of the earlier nodes are. So if
/// the loads take ints, the value of every term is an int.
pub fn lawful_terms_are_ints()
    ensures constants { (code : Code) (paths : Paths) (nodes : List Node)
        → IsLawful code → All HasInt nodes → All HasInt (executed code paths nodes).nodes }
    ensures values { (code : Code) (paths : Paths) (nodes : List Node) (loads : List ℤ) (id : ℕ)
        → IsLawful code → All HasInt nodes → All IsInt loads → IsInt (value_of (executed code paths nodes).nodes loads id) }
{}
