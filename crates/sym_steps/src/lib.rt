//! The next step of a thread on its path, according to the path's terms, and that loads keep
//! agreeing with a history. Each law is the contract of a function with an empty body.
#![tactic(auto)]

ghost use Rattle.std.specs.Prelude.{◌≡◌, ℕ, ℤ, false, Option, Some, None, List, [], ◌∷◌, ◌++◌, slice_index_or, pos};
ghost use Rattle.std.specs.FinMap as fin;
ghost use Rattle.order_events.specs.tc_base.Names.{Name};
ghost use Rattle.order_events.specs.tc_base.States.{Local};
ghost use Rattle.order_events.specs.tc_base.declared.request.Request.{Request};
ghost use Rattle.sym_laws.specs.run_history.History.{Deed, Did, Drained};
ghost use Rattle.sym_laws.specs.run_history.Locals.{locals_in};
ghost use Rattle.sym_laws.specs.run_history.Told.{failed_in};
ghost use Rattle.order_events.specs.path_walk.Paths.{paths_of};
ghost use Rattle.sym_laws.specs.path_laws.Setting.{Setting};
ghost use Rattle.sym_laws.specs.path_laws.history.Next.{IsNextOnPath};
ghost use Rattle.order_events.specs.sym_terms.declared.node.Node.{Node};
ghost use Rattle.sym_laws.specs.sym_exec.Executed.{Course, Symbolic};
ghost use Rattle.sym_laws.specs.sym_exec.declared.symbolic.Access.{Access};
ghost use Rattle.sym_laws.specs.Valued.{IsOneOf, AgreesWith, HasValues, found};
ghost use Rattle.sym_steps.specs.Next.{TestsAreMet, IsToldNext};
ghost use Rattle.sym_steps.specs.Valued.{ValuedHistory, ExecutedThread};

pub mod accesses;

/// Loads keep agreeing with a history after a step that took its symbol's value, and after a drain.
/// They agree with every beginning of the history too.
pub fn loads_go_on_agreeing()
    ensures step { (symbolic : Symbolic) (loads : List ℤ) (h : List Deed) (n : Name) (k : ℕ) (r : Request) (took : ℤ) (other : Option Name)
        → AgreesWith symbolic loads h
        → ((c : Course) (a : Access) (m : ℕ) → IsOneOf c symbolic.threads → IsOneOf a c.accesses → c.name ≡ n → a.step ≡ k → a.takes ≡ Some m
        → slice_index_or loads m (pos 0) ≡ took)
        → AgreesWith symbolic loads (h ++ Did n k r took other ∷ []) }
    ensures drain { (symbolic : Symbolic) (loads : List ℤ) (h : List Deed) (n : Name) (k c : ℕ) (v : ℤ)
        → AgreesWith symbolic loads h → AgreesWith symbolic loads (h ++ Drained n k c v ∷ []) }
    ensures first { (symbolic : Symbolic) (loads : List ℤ) (first later : List Deed)
        → AgreesWith symbolic loads (first ++ later) → AgreesWith symbolic loads first }
{}

/// In a history along the paths, let the loads take the values of their symbols. Then each thread's
/// slots have the values of their terms, its tests had their wanted outcomes, and its accesses are
/// those of its path.
pub fn histories_have_values<B>()
    ensures { (s : Setting B) (nodes : List Node) (loads : List ℤ) (h : ValuedHistory s nodes loads) (t : ExecutedThread s.code s.log nodes) (l : Local)
        → fin.get (locals_in s.code h.deeds) t.name ≡ Some l → HasValues s.code s.log nodes loads h.deeds t.index t.walk t.course l }
{}

/// If also the tests of a thread's next step have their wanted outcomes, and the paths aren't dead,
/// the path determines the step: whether it fails, how it branches, its event, and its cells.
pub fn next_is_told<B>()
    ensures { (s : Setting B) (nodes : List Node) (loads : List ℤ)
        (h : ValuedHistory s nodes loads) (t : ExecutedThread s.code s.log nodes) (x : IsNextOnPath s.code h.deeds t.walk)
        → failed_in h.deeds ≡ None → (paths_of s.code s.log).dead ≡ false → TestsAreMet (found s.code s.log nodes).nodes loads h.deeds t.course
        → (r : Request) × IsToldNext loads h.deeds t x r }
{}
