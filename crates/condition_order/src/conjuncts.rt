//! The conjuncts of waits.
ghost use Rattle.std.specs.Prelude.{◌≡◌, ◌<◌, ◌^◌, ◌++◌, [], ◌∷◌, length, map, nat_lt, IfOk, OnOk};
ghost use Rattle.std.specs.List.{filter, flat_map};
ghost use Rattle.condition_order.specs.Conditions.{
  about,
  begun,
  cases_before,
  cases_one,
  ended,
  ended_before,
  ends_no_later,
  formula_among,
  formula_of,
  not_both,
  not_lost,
  waits,
  wait_formula,
  woken,
};

use crate::wait::{Ender, Wait, enders, sleeps_on, waits};
use order_events::{Events, Sleeps, one_of, single};
use order_formula::{Body, Case, Cases, Conjunct, Group, Literal};
use std::alloc::{AllocError, Global};

/// All conjuncts about conditions, appended sleep by sleep: those about its start and its wake,
/// that a signal ends at most one sleep, and that no signal or broadcast is lost while the sleep
/// waits.
///
/// Fails only if out of memory; some of the conjuncts may then be appended.
pub fn condition_conjuncts(
    alloc: Global,
    events: &Events,
    sleeps: &Sleeps,
    conjuncts: &mut Vec<Conjunct>,
) -> Result<(), AllocError>
    requires { length sleeps.now < 2 ^ 32 }
    ensures { OnOk result (conjuncts.new.items ≡ conjuncts.old.items ++ formula_among events.now (waits events.now sleeps.now)) }
{
    let waits = waits(alloc, events, sleeps)?;
    push_waits(alloc, events, waits.as_slice(), conjuncts)
}

/// Appends the conjuncts of all waits.
fn push_waits(
    alloc: Global,
    events: &Events,
    waits: &[Wait],
    conjuncts: &mut Vec<Conjunct>,
) -> Result<(), AllocError>
    ensures { OnOk result (conjuncts.new.items ≡ conjuncts.old.items ++ formula_among events.now waits.now) }
{
    for wait in waits {
        wait.push_all(alloc, events, waits, conjuncts)?;
    }
    Ok(())
}

impl Wait {
    /// Appends the conjuncts of this wait, which is among all waits.
    fn push_all(
        &self,
        alloc: Global,
        events: &Events,
        waits: &[Wait],
        conjuncts: &mut Vec<Conjunct>,
    ) -> Result<(), AllocError>
        ensures { OnOk result (conjuncts.new.items ≡ conjuncts.old.items ++ formula_of events.now waits.now self.now) }
    {
        let enders = enders(alloc, events, self.condition)?;
        let sleeps = sleeps_on(alloc, waits, self.condition)?;
        self.push_begun(alloc, enders.as_slice(), conjuncts)?;
        self.push_woken(alloc, enders.as_slice(), conjuncts)?;
        self.push_no_later(alloc, enders.as_slice(), sleeps.as_slice(), conjuncts)?;
        self.push_not_lost(alloc, enders.as_slice(), sleeps.as_slice(), conjuncts)?;
        Ok(())
    }

    /// If an ender ends the sleep, it comes after the sleep has begun.
    fn push_begun(
        &self,
        alloc: Global,
        enders: &[Ender],
        conjuncts: &mut Vec<Conjunct>,
    ) -> Result<(), AllocError>
        ensures { OnOk result (conjuncts.new.items ≡ conjuncts.old.items ++ map (begun self.now) enders.now) }
    {
        for ender in enders {
            conjuncts.push(self.begun(alloc, *ender)?)?;
        }
        Ok(())
    }

    /// If the thread wakes, an ender ends the sleep before that.
    fn push_woken(
        &self,
        alloc: Global,
        enders: &[Ender],
        conjuncts: &mut Vec<Conjunct>,
    ) -> Result<(), AllocError>
        ensures { OnOk result (conjuncts.new.items ≡ conjuncts.old.items ++ woken self.now enders.now) }
    {
        if let Some(wake) = self.wakes {
            conjuncts.push(self.ended(alloc, enders)?)?;
            self.push_ended_before(alloc, wake, enders, conjuncts)?;
        }
        Ok(())
    }

    /// If an ender ends the sleep, it comes before the event `wake`.
    fn push_ended_before(
        &self,
        alloc: Global,
        wake: u32,
        enders: &[Ender],
        conjuncts: &mut Vec<Conjunct>,
    ) -> Result<(), AllocError>
        ensures { OnOk result (conjuncts.new.items ≡ conjuncts.old.items ++ map (ended_before self.now wake) enders.now) }
    {
        for ender in enders {
            conjuncts.push(self.ended_before(alloc, wake, *ender)?)?;
        }
        Ok(())
    }

    /// A signal that ends the sleep ends no sleep with a higher number.
    fn push_no_later(
        &self,
        alloc: Global,
        enders: &[Ender],
        sleeps: &[u32],
        conjuncts: &mut Vec<Conjunct>,
    ) -> Result<(), AllocError>
        ensures { OnOk result (conjuncts.new.items ≡ conjuncts.old.items ++ flat_map (ends_no_later self.now sleeps.now) enders.now) }
    {
        for ender in enders {
            if !ender.all {
                self.push_not_both(alloc, *ender, sleeps, conjuncts)?;
            }
        }
        Ok(())
    }

    /// An ender of the sleep ends no sleep with a higher number.
    fn push_not_both(
        &self,
        alloc: Global,
        ender: Ender,
        sleeps: &[u32],
        conjuncts: &mut Vec<Conjunct>,
    ) -> Result<(), AllocError>
        ensures { OnOk result (conjuncts.new.items ≡ conjuncts.old.items ++ map (not_both self.now ender) (filter (nat_lt self.now.sleep) sleeps.now)) }
    {
        for other in sleeps {
            if self.sleep < *other {
                conjuncts.push(self.not_both(alloc, ender, *other)?)?;
            }
        }
        Ok(())
    }

    /// No signal or broadcast is lost while the sleep waits.
    fn push_not_lost(
        &self,
        alloc: Global,
        enders: &[Ender],
        sleeps: &[u32],
        conjuncts: &mut Vec<Conjunct>,
    ) -> Result<(), AllocError>
        ensures { OnOk result (conjuncts.new.items ≡ conjuncts.old.items ++ map (not_lost self.now enders.now sleeps.now) enders.now) }
    {
        for ender in enders {
            conjuncts.push(self.not_lost(alloc, enders, sleeps, *ender)?)?;
        }
        Ok(())
    }

    /// If an ender ends the sleep, it comes after the sleep has begun.
    fn begun(&self, alloc: Global, ender: Ender) -> Result<Conjunct, AllocError>
        ensures { IfOk result (λ conjunct. conjunct ≡ begun self.now ender) }
    {
        one_of(
            alloc,
            Group::Condition(self.condition),
            &[
                Literal::ends(self.sleep, ender.event).opposite(),
                Literal::before(self.begins, ender.event),
            ],
        )
    }

    /// One of the enders ends the sleep.
    fn ended(&self, alloc: Global, enders: &[Ender]) -> Result<Conjunct, AllocError>
        ensures { IfOk result (λ conjunct. conjunct ≡ ended self.now enders.now) }
    {
        let mut cases = Vec::new(alloc);
        for ender in enders {
            cases.push(single(alloc, Literal::ends(self.sleep, ender.event))?)?;
        }
        Ok(self.about(cases))
    }

    /// If an ender ends the sleep, it comes before the event `wake`.
    fn ended_before(&self, alloc: Global, wake: u32, ender: Ender) -> Result<Conjunct, AllocError>
        ensures { IfOk result (λ conjunct. conjunct ≡ ended_before self.now wake ender) }
    {
        one_of(
            alloc,
            Group::Condition(self.condition),
            &[
                Literal::ends(self.sleep, ender.event).opposite(),
                Literal::before(ender.event, wake),
            ],
        )
    }

    /// The ender doesn't end both this sleep and the other.
    fn not_both(&self, alloc: Global, ender: Ender, other: u32) -> Result<Conjunct, AllocError>
        ensures { IfOk result (λ conjunct. conjunct ≡ not_both self.now ender other) }
    {
        one_of(
            alloc,
            Group::Condition(self.condition),
            &[
                Literal::ends(self.sleep, ender.event).opposite(),
                Literal::ends(other, ender.event).opposite(),
            ],
        )
    }

    /// The ender isn't lost: it comes before the sleep, or another ends the sleep before, or it
    /// ends one.
    fn not_lost(
        &self,
        alloc: Global,
        enders: &[Ender],
        sleeps: &[u32],
        ender: Ender,
    ) -> Result<Conjunct, AllocError>
        ensures { IfOk result (λ conjunct. conjunct ≡ not_lost self.now enders.now sleeps.now ender) }
    {
        let mut cases = Vec::new(alloc);
        cases.push(single(alloc, Literal::before(self.begins, ender.event).opposite())?)?;
        self.push_cases_before(alloc, enders, ender, &mut cases)?;
        if ender.all {
            cases.push(single(alloc, Literal::ends(self.sleep, ender.event))?)?;
        } else {
            push_cases_one(alloc, sleeps, ender, &mut cases)?;
        }
        Ok(self.about(cases))
    }

    /// Appends the cases in which another ender ends the sleep before.
    fn push_cases_before(
        &self,
        alloc: Global,
        enders: &[Ender],
        ender: Ender,
        cases: &mut Vec<Case>,
    ) -> Result<(), AllocError>
        ensures { OnOk result (cases.new.items ≡ cases.old.items ++ cases_before self.now enders.now ender) }
    {
        for other in enders {
            if other.event != ender.event {
                cases.push(both(
                    alloc,
                    Literal::ends(self.sleep, other.event),
                    Literal::before(other.event, ender.event),
                )?)?;
            }
        }
        Ok(())
    }

    /// A conjunct about the wait's condition.
    fn about(&self, cases: Vec<Case>) -> Conjunct
        ensures { result ≡ about self.now cases.items }
    {
        Conjunct {
            group: Group::Condition(self.condition),
            body: Body::Any(Cases::new(cases)),
        }
    }
}

/// Appends the cases in which the ender ends one of some sleeps.
fn push_cases_one(
    alloc: Global,
    sleeps: &[u32],
    ender: Ender,
    cases: &mut Vec<Case>,
) -> Result<(), AllocError>
    ensures { OnOk result (cases.new.items ≡ cases.old.items ++ cases_one ender sleeps.now) }
{
    for sleep in sleeps {
        cases.push(single(alloc, Literal::ends(*sleep, ender.event))?)?;
    }
    Ok(())
}

/// The case with two literals.
fn both(alloc: Global, first: Literal, second: Literal) -> Result<Case, AllocError>
    ensures { IfOk result (λ case. case ≡ first ∷ second ∷ []) }
{
    Ok(Case::new(vec![in alloc; first, second]?))
}
