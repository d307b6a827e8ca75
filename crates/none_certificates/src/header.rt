//! The first line of a certificate.

use log_walk::Bounds;
use memory_models::Model;

/// The first line of a certificate: the memory model, and the logs that the search went through.
#[derive(Clone, Copy, Debug)]
pub struct Header {
    /// The memory model.
    pub model: Model,
    /// How the runs of the logs end, and the greatest number of outcomes of a thread.
    pub bounds: Bounds,
    /// Whether the search left out no log for its number of outcomes.
    pub whole: bool,
}
