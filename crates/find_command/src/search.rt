//! What a search is asked.
ghost use Rattle.std.specs.Prelude.{◌<◌, ◌≤◌};
ghost use Rattle.tc_limits.specs.declared.limits.TheConstants.{BUDGET};

use command_inputs::ProgramFile;
use find_failures::Asked;
use memory_models::Model;

/// Searches for a failure or a deadlock of a program, and keeps the log of one, or a certificate that
/// there is none.
#[derive(Clone, Copy)]
pub struct Search<'a> {
    pub program: ProgramFile<'a>,
    /// The name under which a log or a certificate is kept.
    pub out: &'a str,
    pub model: Model,
    pub asked: Asked,
    ghost few: { asked.outcomes < 65536 },
    ghost some: { 1 ≤ asked.budget },
    ghost room: { asked.budget ≤ BUDGET },
}
