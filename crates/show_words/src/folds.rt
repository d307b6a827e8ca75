//! Rows with their silent steps folded: a row is a statement or an event.

use crate::program::Program;
use show_deeds::Deed;
use show_rows::Row;
use std::alloc::{AllocError, Global};

/// Moves that follow each other in one statement, at most one of which isn't silent, as one row.
#[derive(Drop)]
pub(crate) struct Folded {
    /// The place of the row whose number it has.
    pub(crate) place: usize,
    /// The words of its moves.
    pub(crate) words: String,
}

/// Rows that are folded one after another.
#[derive(Drop)]
pub(crate) struct Folds {
    pub(crate) done: Vec<Folded>,
    /// Whether the last row may go on.
    is_open: bool,
    /// Whether the last row has a step that isn't silent: one row has one of these.
    has_event: bool,
}

impl Folds {
    /// No rows.
    pub(crate) fn new(alloc: Global) -> Folds {
        Folds {
            done: Vec::new(alloc),
            is_open: false,
            has_event: false,
        }
    }

    /// Ends the last row, unless this row goes on with the statement of the row before it.
    pub(crate) fn turn_to(&mut self, program: Program<'_>, before: Option<&Row>, row: &Row) {
        self.is_open &= match before {
            Some(before) => is_same_thread(before, row) && program.leads_on(before),
            None => false,
        };
    }

    /// Takes in the words of the row at a place. The last row that goes on has the number of its
    /// event.
    pub(crate) fn take(
        &mut self,
        place: usize,
        words: &str,
        is_event: bool,
    ) -> Result<(), AllocError> {
        if self.is_open
            && !(is_event && self.has_event)
            && let Some(last) = self.done.last_mut()
        {
            if is_event {
                last.place = place;
                self.has_event = true;
            }
            return write!(last.words, "; {words}");
        }
        self.is_open = true;
        self.has_event = is_event;
        let words = String::from_str(*self.done.allocator(), words)?;
        Ok(self.done.push(Folded { place, words })?)
    }
}

/// Whether two rows are steps of one thread.
fn is_same_thread(before: &Row, row: &Row) -> bool {
    match (&before.deed, &row.deed) {
        (Deed::Did(last), Deed::Did(step)) => last.thread == step.thread,
        _ => false,
    }
}
