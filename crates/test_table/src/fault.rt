//! Why a line of a table isn't tried.
use anyhow::{Result, bail};
use std::alloc::{AllocError, AllocFailed};

/// Why a line isn't tried.
#[derive(Clone, Copy)]
pub(crate) enum Fault {
    /// It isn't of its form.
    Form,
    /// There is no memory.
    Memory,
}

impl From<AllocError> for Fault {
    fn from(_: AllocError) -> Fault {
        Fault::Memory
    }
}

impl<T: Drop> From<AllocFailed<T>> for Fault {
    fn from(_: AllocFailed<T>) -> Fault {
        Fault::Memory
    }
}

/// The fault as the program's error.
pub(crate) fn told<T>(read: Result<T, Fault>) -> Result<T> {
    match read {
        Ok(value) => Ok(value),
        Err(Fault::Form) => bail!("a line that can't be read"),
        Err(Fault::Memory) => bail!("no memory"),
    }
}
