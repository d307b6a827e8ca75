//! How a clause is found by its number: rows of 64 numbers stay together, and rows are hashed.
ghost use Rattle.std.specs.Prelude.{◌≡◌};
ghost use Rattle.std.specs.List.{fold};
ghost use Rattle.refute_check.specs.helpers.Blocks.{next_number, place_of_number};

use std::hash::{BuildHasher, Hasher};

/// A number whose place is being computed.
#[derive(Clone, Copy)]
pub struct Blocks {
    number: u32,
}

impl Blocks {
    /// The state before any byte of a number.
    pub fn new() -> Blocks
        ensures { result.number ≡ 0 }
    {
        Blocks { number: 0 }
    }
}

impl Hasher for Blocks {
    ghost write = { λ h bytes. record { number = fold next_number h.number bytes } };

    ghost finish = { λ h. place_of_number h.number };

    fn finish(&self) -> u64 {
        place_of(self.number)
    }

    fn write(&mut self, bytes: &[u8]) {
        self.number = number_after(self.number, bytes);
    }
}

impl BuildHasher for Blocks {
    type Hasher = Blocks;

    ghost build_hasher = { λ s. s };

    fn build_hasher(&self) -> Blocks {
        *self
    }
}

/// The number after some of its bytes, the lowest first.
fn number_after(number: u32, bytes: &[u8]) -> u32
    ensures { result ≡ fold next_number number bytes.now }
{
    let mut number = number;
    for byte in bytes {
        number = number / 256 + u32::from(*byte) * 16_777_216;
    }
    number
}

/// Hashes the row by a multiplication, and keeps the place in the row.
fn place_of(number: u32) -> u64
    ensures { result ≡ place_of_number number }
{
    let product = u64::from(number / 64) * 2_654_435_761 % 4_294_967_296;
    let row = product / 65_536 + product % 65_536 * 65_536;
    row / 64 * 64 + u64::from(number % 64)
}
