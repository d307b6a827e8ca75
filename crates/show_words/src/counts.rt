//! The counts of a schedule.

use crate::moves::Shown;

/// The counts of a schedule.
#[derive(Clone, Copy, Debug, PartialEq, Eq)]
pub struct Counts {
    /// The number of moves.
    pub moves: usize,
    /// The number of events of another thread than the event before: its context switches.
    pub switches: usize,
    /// The number of steps that ask something of memory or of other threads, or fail; a log may
    /// have 256.
    pub events: usize,
}

/// The counts of the moves of a schedule.
pub fn counts_of(shown: &[Shown]) -> Counts {
    let mut counts = Counts {
        moves: shown.len(),
        switches: 0,
        events: 0,
    };
    let mut last: Option<&Shown> = None;
    for row in shown {
        let kind = row.effect.kind;
        if !matches!(kind, "" | "stbar" | "drain") {
            counts.events = counts.events.saturating_add(1);
        }
        // A buffered store takes place by its drain.
        if !matches!(kind, "" | "stbar" | "issue") {
            if let Some(before) = last
                && before.thread != row.thread
            {
                counts.switches = counts.switches.saturating_add(1);
            }
            last = Some(row);
        }
    }
    counts
}
