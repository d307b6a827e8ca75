//! The moves of a schedule in words.

use crate::effects::Effect;
use crate::folds::Folds;
use crate::program::Program;
use crate::sites::Site;
use crate::wording::Wording;
use memory_models::Model;
use show_deeds::{Deed, Seen};
use show_rows::Row;
use std::alloc::{AllocError, Global};
use std::collections::BTreeMap;
use tc_base::{Request, ThreadName};

/// A move in words.
#[derive(Drop)]
pub struct Shown {
    /// The name of its thread, and that of the thread's function.
    pub thread: String,
    /// The number of its statement's line, from 1; of a drain that of the store.
    pub line: u32,
    pub effect: Effect,
    /// The words for its effect.
    pub words: String,
    /// The words of its row where silent steps are folded, if it has one there.
    pub brief: Option<String>,
}

/// The moves so far, and what the words of the next one need.
#[derive(Drop)]
struct Moves<'a> {
    program: Program<'a>,
    buffered: bool,
    shown: Vec<Shown>,
    folds: Folds,
    /// Memory and the stores that wait.
    seen: Seen,
    /// The threads that have begun a wait and haven't ended it, each with its condition.
    waits: BTreeMap<ThreadName, u32>,
}

/// The moves of rows in words, made under a memory model.
pub fn show_moves(
    alloc: Global,
    program: Program<'_>,
    model: Model,
    rows: &[Row],
) -> Result<Vec<Shown>, AllocError> {
    let seen = Seen::at_start(alloc, program.code)?;
    let mut moves = Moves {
        program,
        buffered: is_buffered(model),
        shown: Vec::new(alloc),
        folds: Folds::new(alloc),
        seen,
        waits: BTreeMap::new(alloc),
    };
    moves.take_all(rows)?;
    Ok(moves.into_shown())
}

impl<'a> Moves<'a> {
    /// Takes in the rows, in turn.
    fn take_all(&mut self, rows: &[Row]) -> Result<(), AllocError> {
        for (i, row) in rows.iter().enumerate() {
            self.take(&rows[..i], row)?;
        }
        Ok(())
    }

    /// Takes in the row after these.
    fn take(&mut self, before: &[Row], row: &Row) -> Result<(), AllocError> {
        let shown = self.in_words(before, row)?;
        self.shown.push(shown)?;
        self.fold(before, row)?;
        self.seen.take(self.buffered, &row.deed)?;
        self.note_wait(&row.deed)
    }

    /// The row after these in words.
    fn in_words(&self, before: &[Row], row: &Row) -> Result<Shown, AllocError> {
        let effect = Effect::of(&row.deed, self.buffered);
        let wording = Wording {
            program: self.program,
            before,
            row,
            effect,
            site: Site::of(self.program, row, effect.kind == "fail"),
            is_own: is_own(&self.seen, &row.deed),
            waits: &self.waits,
        };
        wording.shown(*self.shown.allocator())
    }

    /// Adds the words of the last move to those of the statement that it goes on with, if any.
    fn fold(&mut self, before: &[Row], row: &Row) -> Result<(), AllocError> {
        self.folds.turn_to(self.program, before.last(), row);
        let Some(shown) = self.shown.last() else {
            return Ok(());
        };
        let is_event = !shown.effect.kind.is_empty();
        if is_event || Site::of(self.program, row, false).is_brief {
            self.folds
                .take(before.len(), shown.words.as_str(), is_event)
        } else {
            Ok(())
        }
    }

    /// Records that a thread begins or ends a wait.
    fn note_wait(&mut self, deed: &Deed) -> Result<(), AllocError> {
        if let Deed::Did(step) = deed {
            match step.asks {
                Request::BeginWait(condition, _) => {
                    self.waits.insert(step.thread.clone()?, condition)?;
                }
                Request::EndWait(_, _) => {
                    self.waits.remove(&step.thread);
                }
                _ => {}
            }
        }
        Ok(())
    }

    /// The moves, each with its words among folded rows.
    fn into_shown(self) -> Vec<Shown> {
        let Moves {
            mut shown,
            folds,
            ..
        } = self;
        for folded in folds.done {
            if let Some(row) = shown.get_mut(folded.place) {
                row.brief = Some(folded.words);
            }
        }
        shown
    }
}

/// Whether stores wait in buffers under a memory model.
fn is_buffered(model: Model) -> bool {
    match model {
        Model::Sc => false,
        Model::Tso | Model::Pso => true,
    }
}

/// Whether a deed takes its value from its thread's own buffer.
fn is_own(seen: &Seen, deed: &Deed) -> bool {
    match deed {
        Deed::Did(step) => match step.asks {
            Request::Read(cell) => seen.first_by(&step.thread, Some(cell)).is_some(),
            _ => false,
        },
        Deed::Drained(_) => false,
    }
}
