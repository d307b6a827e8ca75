//! The answer of a search with a budget.
ghost use Rattle.std.specs.Prelude.{IfOk, Ok};
ghost use Rattle.cdcl_core.specs.Solving.{IfFound, IsMapped};

use refute_check::Derivation;
use std::alloc::AllocError;

/// The answer of a search with a budget.
#[derive(Debug, Drop)]
pub enum Answer<T> {
    /// What was searched for.
    Found(T),
    /// There is none: this derivation is closed on the clauses.
    Impossible(Derivation),
    /// The search learnt as many clauses as its budget allows, and found neither.
    Spent(Derivation),
}

impl<T> Answer<T> {
    /// The same answer, with what `make` makes of what was found.
    pub fn try_map<U, F: FnOnce(T) -> Result<U, AllocError>>(
        self,
        make: F,
    ) -> Result<Answer<U>, AllocError>
        requires { IfFound (F.pre make) self }
        ensures { IfOk result (IsMapped (λ x y. F.post make x (Ok y)) self) }
    {
        match self {
            Answer::Found(found) => Ok(Answer::Found(make(found)?)),
            Answer::Impossible(derivation) => Ok(Answer::Impossible(derivation)),
            Answer::Spent(derivation) => Ok(Answer::Spent(derivation)),
        }
    }
}
