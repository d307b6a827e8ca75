//! Running a search to its answer.
ghost use Rattle.std.specs.Prelude.{◌≡◌, ◌≢◌, ◌+◌, ◌<◌, ◌≤◌, Some, None, IfOk, OnErr};
ghost use Rattle.cdcl_core.specs.Searches.{count_of_added, GoesOn, Answers};
ghost use Rattle.tc_limits.specs.declared.limits.TheConstants.{BUDGET};

use crate::loading::Begun;
use crate::progress::Progress;
use crate::stages::{Stage, StagedSearch};
use crate::state::State;
use crate::turns::Step;
use cnf_core::{Assignment, Cnf};
use std::alloc::{AllocError, Global};

impl StagedSearch {
    ghost use Rattle.cdcl_core.specs.helpers.States.{IsLive};
    ghost use Rattle.cdcl_core.specs.helpers.Stages.{IsStaged, answer_at, answer_of, searched_of};

    /// A search over the clauses that tries these values first.
    pub(crate) fn begin(
        alloc: Global,
        cnf: &Cnf,
        first: &[bool],
    ) -> Result<StagedSearch, AllocError>
        ensures lawful { IfOk result IsStaged }
        ensures formula { IfOk result (λ s. s.state.formula ≡ cnf.now) }
        ensures none { IfOk result (λ s. s.state.added ≡ 0) }
    {
        let Begun { state, is_closed } = State::begin(alloc, cnf, first)?;
        let values = Vec::new(alloc);
        if is_closed {
            Ok(StagedSearch {
                state,
                stage: Stage::Closed,
                values,
            })
        } else {
            Ok(StagedSearch {
                state,
                stage: Stage::Going,
                values,
            })
        }
    }

    /// Runs until there is an answer, or `conflicts` more clauses are learnt.
    pub(crate) fn run(&mut self, alloc: Global, conflicts: u32) -> Result<Progress, AllocError>
        requires lawful { IsStaged self.old }
        requires some { 1 ≤ conflicts }
        requires room { self.old.state.added + conflicts ≤ BUDGET }
        ensures lawful { IsStaged self.new }
        ensures goes_on { GoesOn (searched_of self.old) (searched_of self.new) }
        ensures answers { IfOk result (Answers (searched_of self.old) (searched_of self.new) conflicts) }
        ensures answered { (p : Progress) → answer_of self.old ≡ Some p → (self.new ≡ self.old) × IfOk result (λ q. q ≡ p) }
        ensures err { OnErr result (count_of_added self.new.state.derivation < count_of_added self.old.state.derivation + conflicts) }
        ensures err_open { OnErr result (answer_of self.old ≡ None → answer_of self.new ≡ None) }
    {
        if let Some(answer) = self.answer()? {
            return Ok(answer);
        }
        self.go(alloc, conflicts)
    }

    /// The answer, if there is one.
    fn answer(&self) -> Result<Option<Progress>, AllocError>
        ensures { IfOk result (λ answer. answer ≡ answer_of self.now) }
    {
        match self.stage {
            Stage::Going => Ok(None),
            Stage::Satisfied => Ok(Some(satisfied(&self.values)?)),
            Stage::Closed => Ok(Some(Progress::Closed)),
        }
    }

    /// Runs a search that has no answer yet.
    fn go(&mut self, alloc: Global, conflicts: u32) -> Result<Progress, AllocError>
        requires lawful { IsStaged self.old }
        requires going { answer_of self.old ≡ None }
        requires some { 1 ≤ conflicts }
        requires room { self.old.state.added + conflicts ≤ BUDGET }
        ensures lawful { IsStaged self.new }
        ensures goes_on { GoesOn (searched_of self.old) (searched_of self.new) }
        ensures answers { IfOk result (Answers (searched_of self.old) (searched_of self.new) conflicts) }
        ensures err { OnErr result (count_of_added self.new.state.derivation < count_of_added self.old.state.derivation + conflicts) }
        ensures err_open { OnErr result (answer_of self.new ≡ None) }
    {
        match self.state.go(alloc, conflicts)? {
            Step::Learnt => Ok(Progress::Paused),
            Step::Closed => {
                self.stage = Stage::Closed;
                Ok(Progress::Closed)
            }
            Step::Full(values) => {
                let answer = satisfied(&values)?;
                self.values = values;
                self.stage = Stage::Satisfied;
                Ok(answer)
            }
        }
    }
}

/// These values as an answer.
fn satisfied(values: &Vec<bool>) -> Result<Progress, AllocError>
    ensures { IfOk result (λ p. p ≡ Progress.Sat values.now.items) }
{
    Ok(Progress::Sat(Assignment::new(values.clone()?)))
}
