//! When to restart.

/// The sequence 1, 1, 2, 1, 1, 2, 4, 1, .. of Luby, Sinclair and Zuckerman.
#[derive(Debug, Drop)]
pub struct Luby {
    round: u64,
    term: u64,
}

impl Luby {
    /// The sequence at its first term.
    pub fn new() -> Luby {
        Luby { round: 1, term: 1 }
    }

    /// The current term.
    pub fn term(&self) -> u64 {
        self.term
    }

    /// Advances to the next term: twice this one, up to the greatest power of two of the round.
    pub fn advance(&mut self) {
        if self.term >= 1 << self.round.trailing_zeros().min(63) {
            self.round = self.round.wrapping_add(1);
            self.term = 1;
        } else {
            self.term = self.term.wrapping_mul(2);
        }
    }
}
