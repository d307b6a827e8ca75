//! A place in a text.
ghost use Rattle.std.specs.Prelude.{◌+◌, ◌<◌, ◌^◌, length};

/// A place in a text: its offset, and the bytes from there on.
#[derive(Clone, Copy)]
pub(crate) struct Cursor<'a> {
    pub(crate) at: usize,
    pub(crate) rest: &'a [u8],
    ghost fits: { at + length rest.now < 2 ^ 64 },
}
