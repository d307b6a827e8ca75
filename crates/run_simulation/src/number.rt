//! Numbers of threads.
ghost use Rattle.std.specs.Prelude.{◌≡◌, ◌<◌};
ghost use Rattle.tc_limits.specs.declared.limits.TheConstants.{THREADS};

use std::array;
use std::marker::Model;
use tc_limits::limits::THREADS;

/// The number of a thread: its index in the paths. It is below `THREADS`.
#[derive(Clone, Copy, PartialEq, Eq)]
pub struct ThreadNumber {
    number: usize,
}

impl Model for ThreadNumber {
    ghost use Rattle.std.specs.Prelude.{ℕ, ◌<◌};
    ghost use Rattle.tc_limits.specs.declared.limits.TheConstants.{THREADS};

    ghost Value = { ℕ };

    ghost view = { λ t. t.number };

    ghost invariant = { λ t. t.number < THREADS };

    ghost inverse = { λ n. record { number = n } };
}

impl ThreadNumber {
    /// The number of the thread with this index.
    pub fn new(number: usize) -> ThreadNumber
        requires { number < THREADS }
        ensures { result ≡ number }
    {
        ThreadNumber { number }
    }

    /// The numbers of all threads, in order.
    pub fn all() -> [ThreadNumber; THREADS] {
        array::from_fn(|number| ThreadNumber::new(number))
    }

    /// The index.
    pub fn index(self) -> usize
        ensures index { result ≡ self }
        ensures below { result < THREADS }
    {
        self.number
    }
}
