//! The paths that a search finds.
use std::marker::Model;

/// A path of a thread.
#[derive(Debug, Drop)]
pub struct Path {
    /// The outcomes of its branches, in order.
    pub outcomes: Vec<bool>,
    /// The number of steps, including one that fails.
    pub steps: u16,
}

impl Model for Path {
    ghost use Rattle.tc_code.specs.tc_base.Paths.{Path as PlainPath};

    ghost Value = { PlainPath };

    ghost view = { λ p. record { outcomes = p.outcomes.items; steps = p.steps } };
}

/// Whether paths were left out, by reason.
#[derive(Clone, Copy, Debug, PartialEq, Eq)]
pub struct Cut {
    /// They may have more outcomes than the caller allows.
    pub outcomes: bool,
    /// They may have more steps than a log holds.
    pub steps: bool,
}

/// The path, if one was found, and what the search left out before it.
#[derive(Debug, Drop)]
pub struct Found {
    /// The path.
    pub path: Option<Path>,
    /// What was left out.
    pub cut: Cut,
}

impl Model for Found {
    ghost use Rattle.thread_paths.specs.Search.{Found as PlainFound};

    ghost Value = { PlainFound };

    ghost view = { λ f. record { path = f.path; cut = f.cut } };
}
