//! The store buffers of the three memory models, and the trait over which other code is generic.
//!
//! A generic caller uses [`MemoryModel`]: its calls compute the operations `ops` on a buffer's
//! meaning, and the laws say how such a buffer represents a list of pending stores and bars, oldest
//! first.
#![tactic(auto)]

ghost use Rattle.std.specs.Prelude.{◌≡◌, ℕ, Bool, is_some, IfSome, IfNone, IfOk, OnOk, OnErr};
ghost use Rattle.tc_base.specs.Buffers.{BufferOps};
ghost use Rattle.memory_models.specs.declared.model.Model.{Model as SpecModel};
ghost use Rattle.store_buffers.specs.Pending.{Binding};
ghost use Rattle.store_buffers.specs.Laws.{Laws, AreForms};

pub mod laws;
mod pso;
mod queue;
mod sc;
mod segment;
mod segments;
mod tso;
mod values;

use memory_models::Model;
pub use pso::PsoModel;
pub use queue::Queue;
pub use sc::Sc;
pub use segments::Segments;
use std::alloc::{AllocError, Global};
use std::fmt::Debug;
pub use tso::TsoModel;

/// How a thread's stores reach memory.
///
/// Each thread has its own buffer. In a model without buffers, a store goes to memory at once, and
/// the buffer stays empty.
pub trait MemoryModel {
    /// A thread's stores on their way to memory.
    type Buffer: Debug + Drop;

    /// The name of the model.
    const MODEL: Model;
    /// Whether stores go into the buffer.
    const BUFFERED: bool;

    ghost MODEL: { SpecModel };

    ghost BUFFERED: { Bool };
    /// The operations on the meaning of a buffer.
    ghost ops: { BufferOps Self.Buffer };

    ghost bound: { Binding };

    /// An empty buffer.
    fn empty(alloc: Global) -> Self::Buffer
        ensures { result ≡ ops.empty };

    /// Adds a store. A model without buffers keeps none, so this isn't to be called there.
    fn issue(buffer: &mut Self::Buffer, cell: u32, value: i32) -> Result<(), AllocError>
        ensures ok { OnOk result (buffer.new ≡ ops.issue buffer.old cell value) }
        ensures err { OnErr result (buffer.new ≡ buffer.old) };

    /// The value of the newest store to a cell, which a load of the same thread returns.
    fn forward(buffer: &Self::Buffer, cell: u32) -> Option<i32>
        ensures { result ≡ ops.forward buffer.now cell };

    /// Whether no store is pending.
    fn is_empty(buffer: &Self::Buffer) -> bool
        ensures { result ≡ ops.is_empty buffer.now };

    /// Whether a store may drain in this form.
    fn may_drain(buffer: &Self::Buffer, form: Option<u32>) -> bool
        ensures { result ≡ ops.may_drain buffer.now form };

    /// Takes out the store that drains in this form, its cell and value, if one may drain.
    fn drain(buffer: &mut Self::Buffer, form: Option<u32>) -> Option<(u32, i32)>
        ensures may { is_some result ≡ ops.may_drain buffer.old form }
        ensures cell { IfSome result (λ store. store.0 ≡ (ops.drain buffer.old form).entry.cell) }
        ensures value { IfSome result (λ store. store.1 ≡ (ops.drain buffer.old form).entry.value) }
        ensures rest { IfSome result (λ _. buffer.new ≡ (ops.drain buffer.old form).rest) }
        ensures none { IfNone result (buffer.new ≡ buffer.old) };

    /// Adds a bar: no later store reaches memory before a store that is already buffered.
    fn bar(buffer: &mut Self::Buffer) -> Result<(), AllocError>
        ensures ok { OnOk result (buffer.new ≡ ops.bar buffer.old) }
        ensures err { OnErr result (buffer.new ≡ buffer.old) };

    /// The forms in which the buffer may drain, in order: `None`, or increasing cells.
    fn forms(alloc: Global, buffer: &Self::Buffer) -> Result<Vec<Option<u32>>, AllocError>
        ensures { IfOk result (λ forms. AreForms ops buffer.now forms.items) };

    /// Whether a store is bound to reach memory before a newer one of its thread, depending on
    /// whether their cells are the same and whether a bar is between them.
    fn bound(same_cell: bool, barred: bool) -> bool
        ensures { result ≡ bound same_cell barred };

    ghost buffered: { BUFFERED ≡ ops.buffered };

    ghost laws: { Laws ops MODEL bound };
}
