//! The cells of accesses in a history along the paths. Each law is the contract of a function with
//! an empty body.
ghost use Rattle.std.specs.Prelude.{◌≡◌, ◌<◌, ◌==◌, ℕ, ℤ, pos, Some, List, slice_index_or};
ghost use Rattle.std.specs.List.{Contains};
ghost use Rattle.sym_laws.specs.run_history.Told.{steps_in};
ghost use Rattle.order_events.specs.path_walk.Paths.{Paths};
ghost use Rattle.sym_laws.specs.path_laws.Setting.{Setting};
ghost use Rattle.order_events.specs.sym_terms.declared.node.Node.{Node};
ghost use Rattle.sym_laws.specs.sym_exec.Alone.{Asked, asked_in, cell_by};
ghost use Rattle.sym_laws.specs.sym_exec.Executed.{Symbolic};
ghost use Rattle.sym_laws.specs.sym_exec.declared.symbolic.Access.{Access};
ghost use Rattle.sym_laws.specs.Valued.{found};
ghost use Rattle.order_events.specs.order_formula.Worlds.{World};
ghost use Rattle.order_events.specs.lawful_order.Cells.{is_same_cell, value_at_start};
ghost use Rattle.order_events.specs.lawful_order.Memory.{cell_of};
ghost use Rattle.order_events.specs.lawful_order.Reads.{HasAccess};
ghost use Rattle.order_events.specs.lawful_order.Whole.{IsExecutedBy};
ghost use Rattle.sym_steps.specs.accesses.Asked.{IsAskedIn, IsReachedIn};
ghost use Rattle.sym_steps.specs.Valued.{ValuedHistory, ExecutedThread};

/// In a history along the paths, a thread's steps make exactly the accesses of its path, step by
/// step.
pub fn accesses_are_asked<B>()
    ensures done { (s : Setting B) (nodes : List Node) (loads : List ℤ) (h : ValuedHistory s nodes loads) (t : ExecutedThread s.code s.log nodes) (a : Access)
        → Contains t.course.accesses a → a.step < steps_in h.deeds t.name
        → IsAskedIn h.deeds t.name a.step (asked_in (found s.code s.log nodes).nodes loads a) }
    ensures found { (s : Setting B) (nodes : List Node) (loads : List ℤ)
        (h : ValuedHistory s nodes loads) (t : ExecutedThread s.code s.log nodes) (k : ℕ) (asked : Asked) → IsAskedIn h.deeds t.name k asked
        → (a : Access) × Contains t.course.accesses a × (a.step ≡ k) × (asked_in (found s.code s.log nodes).nodes loads a ≡ asked) }
{}

/// Two accesses that are done, or next, are to the same cell exactly when their cells have the same
/// number: arrays don't overlap, and each index was tested to be inside its array.
pub fn cells_are_one<B>()
    ensures { (s : Setting B) (nodes : List Node) (w : World) (h : ValuedHistory s nodes w.loads) (t u : ℕ) (a b : Access)
        → IsReachedIn s.code s.log nodes h.deeds t a → IsReachedIn s.code s.log nodes h.deeds u b
        → is_same_cell (found s.code s.log nodes).nodes w a.cell b.cell
        ≡ (cell_by (found s.code s.log nodes).nodes w.loads a.cell == cell_by (found s.code s.log nodes).nodes w.loads b.cell) }
{}

/// The initial value of such an access's cell is the one that the code gives it.
pub fn cells_begin<B>()
    ensures { (s : Setting B) (nodes : List Node) (loads : List ℤ) (h : ValuedHistory s nodes loads) (t : ℕ) (a : Access)
        → IsReachedIn s.code s.log nodes h.deeds t a
        → value_at_start s.code a.cell ≡ slice_index_or s.code.memory (cell_by (found s.code s.log nodes).nodes loads a.cell) (pos 0) }
{}

/// The cell of a thread's step is the cell of its access.
pub fn cells_are_found()
    ensures { (paths : Paths) (symbolic : Symbolic) (t : ℕ) (a : Access)
        → IsExecutedBy paths symbolic → HasAccess symbolic t a → cell_of symbolic t a.step ≡ Some a.cell }
{}
