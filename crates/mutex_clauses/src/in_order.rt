//! The literal that all is in order in the regions of a mutex, as code.
mod literals;
mod ordered;

pub use literals::{is_of_mutex, used_of};
pub use ordered::in_order;
