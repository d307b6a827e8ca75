//! Thread variables.

/// The value of a thread variable. A child is known by the number of its create in its creator,
/// from 1.
#[derive(Clone, Copy, Debug, PartialEq, Eq)]
pub enum Handle {
    /// Nothing yet.
    Unset,
    /// A child that hasn't been joined.
    Child(u32),
    /// A child that has been joined.
    Joined(u32),
}
