//! What holds of every buffer, and which definition each model's buffer has. The clause of each
//! function is a law, and its body does nothing.
ghost use Rattle.std.specs.Prelude.{◌≡◌, ℕ, ℤ, true, Option, List, [], ◌∷◌, ◌++◌};
ghost use Rattle.tc_base.specs.Buffers.{BufferOps, Entry};
ghost use Rattle.store_buffers.specs.Buffers.{buffer_of};
ghost use Rattle.memory_models.specs.declared.model.Model.{Model};
ghost use Rattle.memory_models.specs.declared.model.Model.TheVariants as model;
ghost use Rattle.store_buffers.specs.Pending.{Pending, Store, Bar, Binding, Drains, Stands, stores_by};
ghost use Rattle.store_buffers.specs.Laws.{Laws};

use crate::{MemoryModel, PsoModel, Sc, TsoModel};

/// The operations of each model are those of its buffer by definition.
pub fn models_have_their_buffers()
    ensures sc { ⟦<Sc as MemoryModel>⟧.ops ≡ buffer_of model.Sc }
    ensures tso { ⟦<TsoModel as MemoryModel>⟧.ops ≡ buffer_of model.Tso }
    ensures pso { ⟦<PsoModel as MemoryModel>⟧.ops ≡ buffer_of model.Pso }
{}

/// A buffer without stores represents the empty list.
pub fn empty_stands<B>()
    ensures { (ops : BufferOps B) → Stands ops ops.empty [] }
{}

/// After a store is issued, the buffer represents the list with that store last.
pub fn issue_stands<B>()
    ensures { (ops : BufferOps B) (b : B) (ps : List Pending) (c : ℕ) (v : ℤ)
        → ops.buffered ≡ true → Stands ops b ps → Stands ops (ops.issue b c v) (ps ++ Store (record { cell = c; value = v }) ∷ []) }
{}

/// After a bar, the buffer represents the list with a bar last.
pub fn bar_stands<B>()
    ensures { (ops : BufferOps B) (b : B) (ps : List Pending)
        → Stands ops b ps → Stands ops (ops.bar b) (ps ++ Bar ∷ []) }
{}

/// A store that may drain in a form is the oldest of that form, so the list alone determines what
/// drains.
pub fn oldest_drains<B>()
    ensures { (ops : BufferOps B) (model : Model) (bound : Binding) (ps older newer : List Pending) (form : Option ℕ) (e : Entry)
        → Laws ops model bound → Drains bound ps form older e newer
        → stores_by bound form ps ≡ e ∷ stores_by bound form newer }
{}
