//! The paths that a search looks for.

/// How a path ends if the thread doesn't fail.
#[derive(Clone, Copy, Debug, PartialEq, Eq)]
pub enum End {
    /// With the thread's exit.
    Exit,
    /// With a step that another thread may use.
    Used,
    /// With such a step, or the thread does nothing.
    Open,
    /// With the thread's exit, or at a place where it may have to wait for others.
    Rest,
}

/// How a path ends.
#[derive(Clone, Copy, Debug, PartialEq, Eq)]
pub struct Aim {
    /// The end if the thread doesn't fail.
    pub end: End,
    /// Whether the thread may fail in its last step.
    pub may_fail: bool,
}

/// The scope of a search.
#[derive(Clone, Copy, Debug)]
pub struct Scope {
    /// The number of the function that the thread runs.
    pub function: usize,
    /// How they end.
    pub aim: Aim,
    /// The greatest number of outcomes.
    pub most: u16,
}
