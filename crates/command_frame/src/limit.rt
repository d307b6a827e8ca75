//! Limits of inputs.
ghost use Rattle.std.specs.Prelude.{◌<◌};

/// The greatest number of bytes of inputs of a kind.
#[derive(Clone, Copy)]
pub struct Limit {
    /// The name of the kind, such as `program` or `log`.
    pub kind: &'static str,
    pub most: u64,
    ghost counted: { most < 18446744073709551615 },
}
