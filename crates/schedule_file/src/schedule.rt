//! A schedule.
ghost use Rattle.schedule_file.specs.Schedules.{HaveText};

use memory_models::Model;
use tc_base::Move;

/// The moves of a run and its memory model.
///
/// Every schedule has a text. It has at most as many lines as a schedule may have bytes. Its names
/// have at most `DEPTH` creates with numbers from 1 to 255, and its cells are below `CELLS`. A
/// drain names a cell under PSO, none under TSO, and is impossible under SC.
#[derive(Debug, Drop)]
pub struct Schedule {
    pub model: Model,
    pub moves: Vec<Move>,
    ghost has_text: { HaveText model moves.items },
}
