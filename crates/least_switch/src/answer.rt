//! The results of a search for a schedule with the fewest context switches.

use refute_check::Derivation;
use schedule_file::Schedule;

/// The result of a search for a schedule of a log with the fewest context switches.
#[derive(Debug, Drop)]
pub enum Least {
    /// This schedule reproduces the log with this many switches, and none has fewer: if it has
    /// any, the derivation is closed on the log's clauses with one switch fewer.
    Found(Schedule, u32, Option<Derivation>),
    /// No schedule reproduces the log: the derivation is closed on its clauses.
    Impossible(Derivation),
    /// As many clauses were learnt as the budget allows, and no schedule was found.
    Spent(Derivation),
    /// This schedule reproduces the log with this many switches, at least one. The search for fewer
    /// learnt as many clauses as the budget allows, and found neither a schedule nor a proof.
    SpentAt(Schedule, u32, Derivation),
}
