//! Executed paths.

use path_walk::Paths;
use sym_exec::Symbolic;
use sym_terms::Terms;

/// The paths of a log, with the result of executing them.
#[derive(Debug, Drop)]
pub struct Execution {
    /// The paths.
    pub paths: Paths,
    /// The result of executing them, with terms in place of values.
    pub symbolic: Symbolic,
    /// The terms of their execution, and of a formula about it.
    pub terms: Terms,
}
