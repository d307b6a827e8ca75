//! Conjuncts about events, and formulas.
ghost use Rattle.std.specs.Prelude.{◌≡◌, [], ◌∷◌, IfOk, OnOk};
ghost use Rattle.std.specs.List.{All};
ghost use Rattle.order_formula.specs.Orders.{ConjunctIsIn, Grows, with_formula};
ghost use Rattle.order_events.specs.Parts.{comes_before, one_of};

use crate::Events;
use order_formula::{Body, Case, Cases, Conjunct, Formula, Group, Literal, Order};
use std::alloc::{AllocError, Global};

impl Events {
    /// The literal that a step of one thread comes before a step of a thread, maybe the same.
    pub fn before(
        &self,
        thread: usize,
        step: usize,
        later_thread: usize,
        later_step: usize,
    ) -> Literal
        ensures { result ≡ comes_before self.now thread step later_thread later_step }
    {
        Literal::before(
            self.number(thread, step),
            self.number(later_thread, later_step),
        )
    }
}

/// The conjunct that one of the literals holds.
pub fn one_of(alloc: Global, group: Group, literals: &[Literal]) -> Result<Conjunct, AllocError>
    ensures { IfOk result (λ conjunct. conjunct ≡ one_of group literals.now) }
{
    let mut cases = Vec::new(alloc);
    for literal in literals {
        cases.push(single(alloc, *literal)?)?;
    }
    Ok(Conjunct {
        group,
        body: Body::Any(Cases::new(cases)),
    })
}

/// The case with one literal.
pub fn single(alloc: Global, literal: Literal) -> Result<Case, AllocError>
    ensures { IfOk result (λ case. case ≡ literal ∷ []) }
{
    Ok(Case::new(vec![in alloc; literal]?))
}

/// The formula of some conjuncts, whose questions are added to the order.
///
/// Fails only if out of memory; the order may then have some of the questions.
pub fn formula_of(
    alloc: Global,
    conjuncts: Vec<Conjunct>,
    order: &mut Order,
) -> Result<Formula, AllocError>
    requires { All (ConjunctIsIn order.old) conjuncts.items }
    ensures formula { IfOk result (λ formula. formula ≡ conjuncts.items) }
    ensures asked { OnOk result (order.new ≡ with_formula order.old conjuncts.items) }
    ensures grows { Grows order.old order.new }
{
    let mut formula = Formula::empty(alloc);
    for conjunct in conjuncts {
        formula.push(conjunct, order)?;
    }
    Ok(formula)
}
