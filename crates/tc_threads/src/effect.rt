//! The effects of instructions on memory and store buffers.

/// What a thread reads or puts into its store buffer when it does an instruction.
#[derive(Clone, Copy, Debug, PartialEq, Eq)]
pub enum Effect {
    /// It reads this value, if it reads any.
    Takes(i32),
    /// It buffers a store of this value to this cell.
    Issues(u32, i32),
    /// It buffers a bar.
    Bars,
}
