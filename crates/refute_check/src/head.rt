//! The header of a refutation.

use memory_models::Model;

/// The header of a refutation: the memory model, and the bound on context switches, if any.
#[derive(Clone, Copy, Debug, PartialEq, Eq)]
pub struct Head {
    /// The memory model of the formula.
    pub model: Model,
    /// The formula allows at most this many context switches.
    pub switches: Option<u8>,
}
