//! Cells, as instructions name them.

/// A cell of memory, whose index is a value or what stands for one.
#[derive(Clone, Copy, Debug, PartialEq, Eq, Drop)]
pub enum Cell<T> {
    /// The cell with this number.
    Fixed(u32),
    /// The element at the index, of the array of that length that begins at cell `first`.
    Element { first: u32, length: u32, index: T },
}
