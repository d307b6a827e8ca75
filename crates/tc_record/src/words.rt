//! The words of the generator that chooses seeded runs.
ghost use Rattle.std.specs.Prelude.{◌≡◌, length, IfOk};
ghost use Rattle.tc_record.specs.Seeded.{seed_words};

use rand_core::{Rng, SeedableRng};
use rand_xoshiro::SplitMix64;
use std::alloc::{AllocError, Global};

/// The first words of the generator from which [`run_seeded`](crate::run_seeded) draws.
pub fn seed_words(alloc: Global, seed: u64, count: usize) -> Result<Vec<u64>, AllocError>
    ensures words { IfOk result (λ words. words.items ≡ seed_words seed count) }
    ensures length { IfOk result (λ words. length words.items ≡ count) }
{
    let mut rng = SplitMix64::seed_from_u64(seed);
    let mut words = Vec::new(alloc);
    for _ in 0..count {
        words.push(rng.next_u64())?;
    }
    Ok(words)
}
