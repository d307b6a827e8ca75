//! Runs of one memory model as runs of another. Each function states a law, and its body does
//! nothing.
#![tactic(auto)]

ghost use Rattle.std.specs.Prelude.{◌≡◌, List, Some};
ghost use Rattle.store_buffers.specs.tc_base.Buffers.{BufferOps};
ghost use Rattle.store_buffers.specs.Buffers.{no_buffer, fifo_buffer, cell_buffer};
ghost use Rattle.store_buffers.specs.tc_base.States.{State};
ghost use Rattle.store_buffers.specs.memory_models.declared.model.Model.{Model};
ghost use Rattle.store_buffers.specs.tc_base.declared.moves.Move.{Move};
ghost use Rattle.run_laws.specs.tc_code.Code.{Code};
ghost use Rattle.run_laws.specs.tc_code.Run.{run, Reproduces};
ghost use Rattle.store_buffers.specs.Laws.{Laws};
ghost use Rattle.store_buffers.specs.Pending.{Binding};
ghost use Rattle.run_laws.specs.run_log.Logs.{Log};
ghost use Rattle.run_models.specs.Models.{AllowsMore, moves_as, drained_at_once, with_cells, SameButBuffers};

/// A run under one memory model is also a run under every model that allows more, and the two final
/// states are equal apart from their buffers. If only the other model has buffers, each store
/// drains at once.
pub fn runs_under_more<B, C>()
    ensures { (ops : BufferOps B) (model : Model) (bound : Binding) (more : BufferOps C) (other : Model) (less : Binding)
        → Laws ops model bound → Laws more other less → AllowsMore ops bound more less
        → (code : Code) (moves : List Move) (s : State B) → run ops code moves ≡ Some s
        → (u : State C) × (run more code (moves_as ops code more.buffered less moves) ≡ Some u) × SameButBuffers s u }
{}

/// So moves that reproduce a log under one model do so under every model that allows more, for a
/// failure or a deadlock: in a deadlock no store is pending under either model, so no other move is
/// enabled.
pub fn reproduces_under_more<B, C>()
    ensures { (ops : BufferOps B) (model : Model) (bound : Binding) (more : BufferOps C) (other : Model) (less : Binding)
        → Laws ops model bound → Laws more other less → AllowsMore ops bound more less
        → (code : Code) (log : Log) (moves : List Move) → Reproduces ops code log moves
        → Reproduces more code log (moves_as ops code more.buffered less moves) }
{}

/// Moves that reproduce a log under sequential consistency do so under total store order, if each
/// store drains at once.
pub fn sequential_under_total()
    ensures { (code : Code) (log : Log) (moves : List Move)
        → Reproduces no_buffer code log moves → Reproduces fifo_buffer code log (drained_at_once code moves) }
{}

/// Moves that reproduce a log under total store order do so under partial store order, if each
/// drain names its cell.
pub fn total_under_partial()
    ensures { (code : Code) (log : Log) (moves : List Move)
        → Reproduces fifo_buffer code log moves → Reproduces cell_buffer code log (with_cells code moves) }
{}
