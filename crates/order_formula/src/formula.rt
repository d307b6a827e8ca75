//! Formulas.
ghost use Rattle.std.specs.Prelude.{◌≡◌, ◌++◌, [], ◌∷◌, ◌^◌, ◌-◌, min, map, sum, IfOk, OnOk, OnErr};
ghost use Rattle.order_formula.specs.Formulas.{body_nodes, case_nodes, nodes_of};
ghost use Rattle.order_formula.specs.Orders.{ConjunctIsIn, Grows, with_conjunct};

use crate::{Group, Literal, Order, Read};
use std::alloc::{AllocError, Global};
use std::marker::Model;

/// A conjunction of literals.
#[derive(Debug, Drop)]
pub struct Case {
    literals: Vec<Literal>,
}

impl Model for Case {
    ghost use Rattle.std.specs.Prelude.{List};
    ghost use Rattle.order_formula.specs.declared.literal.Literal.{Literal};

    ghost Value = { List Literal };

    ghost view = { λ c. c.literals.items };
}

impl Case {
    /// The case that all these literals hold.
    pub fn new(literals: Vec<Literal>) -> Case
        ensures { result ≡ literals.items }
    {
        Case { literals }
    }

    /// Its literals.
    pub fn literals(&self) -> &[Literal]
        ensures { result.now ≡ self.now }
    {
        self.literals.as_slice()
    }
}

/// A disjunction of cases.
#[derive(Debug, Drop)]
pub struct Cases {
    cases: Vec<Case>,
}

impl Model for Cases {
    ghost use Rattle.std.specs.Prelude.{List};
    ghost use Rattle.order_formula.specs.declared.literal.Literal.{Literal};

    ghost Value = { List (List Literal) };

    ghost view = { λ c. c.cases.items };
}

impl Cases {
    /// The disjunction of these cases.
    pub fn new(cases: Vec<Case>) -> Cases
        ensures { result ≡ cases.items }
    {
        Cases { cases }
    }

    /// The cases.
    pub fn as_slice(&self) -> &[Case]
        ensures { result.now ≡ self.now }
    {
        self.cases.as_slice()
    }
}

/// What a conjunct says.
#[derive(Debug, Drop)]
pub enum Body {
    /// One of the cases holds. A case without literals always holds; without cases, none does.
    Any(Cases),
    /// A load takes the right value.
    Read(Read),
}

/// A condition on a world.
#[derive(Debug, Drop)]
pub struct Conjunct {
    /// The group of rules that it belongs to.
    pub group: Group,
    /// What it says.
    pub body: Body,
}

/// A conjunction of conjuncts.
#[derive(Debug, Drop)]
pub struct Formula {
    conjuncts: Vec<Conjunct>,
}

impl Model for Formula {
    ghost use Rattle.std.specs.Prelude.{List};
    ghost use Rattle.order_formula.specs.declared.formula.Conjunct.{Conjunct};

    ghost Value = { List Conjunct };

    ghost view = { λ f. f.conjuncts.items };
}

impl Formula {
    /// The formula without conjuncts, which is true.
    pub fn empty(alloc: Global) -> Formula
        ensures { result ≡ [] }
    {
        Formula {
            conjuncts: Vec::new(alloc),
        }
    }

    /// Appends a conjunct, and adds its questions to the order. If out of memory, the formula is
    /// unchanged, and the order may have more questions.
    pub fn push(&mut self, conjunct: Conjunct, order: &mut Order) -> Result<(), AllocError>
        requires { ConjunctIsIn order.old conjunct }
        ensures added { OnOk result (self.new ≡ self.old ++ conjunct ∷ []) }
        ensures asked { OnOk result (order.new ≡ with_conjunct order.old conjunct) }
        ensures refused { OnErr result (self.new ≡ self.old) }
        ensures grows { Grows order.old order.new }
    {
        order.ask(&conjunct)?;
        Ok(self.conjuncts.push(conjunct)?)
    }

    /// The conjunction of both formulas: the conjuncts of the first, then those of the second.
    pub fn and(self, other: Formula) -> Result<Formula, AllocError>
        ensures { IfOk result (λ both. both ≡ self ++ other) }
    {
        let mut conjuncts = self.conjuncts;
        for conjunct in other.conjuncts {
            conjuncts.push(conjunct)?;
        }
        Ok(Formula { conjuncts })
    }

    /// The conjuncts, in order.
    pub fn conjuncts(&self) -> &[Conjunct]
        ensures { result.now ≡ self.now }
    {
        self.conjuncts.as_slice()
    }

    /// The size of the formula: the number of its conjuncts, cases, literals and candidates, or the
    /// greatest number of 64 bits if that is exceeded.
    pub fn nodes(&self) -> u64
        ensures { result ≡ min (nodes_of self.now) (2 ^ 64 - 1) }
    {
        let mut count: u64 = 0;
        for conjunct in self.conjuncts() {
            count = count
                .saturating_add(conjunct.body.nodes())
                .saturating_add(1);
        }
        count
    }
}

impl Body {
    /// The number of its nodes.
    fn nodes(&self) -> u64
        ensures { result ≡ min (body_nodes self.now) (2 ^ 64 - 1) }
    {
        match self {
            Body::Any(cases) => cases.nodes(),
            Body::Read(read) => read.candidates().len() as u64,
        }
    }
}

impl Cases {
    /// The number of the nodes of all cases.
    fn nodes(&self) -> u64
        ensures { result ≡ min (sum (map case_nodes self.now)) (2 ^ 64 - 1) }
    {
        let mut count: u64 = 0;
        for case in self.as_slice() {
            count = count
                .saturating_add(case.literals().len() as u64)
                .saturating_add(1);
        }
        count
    }
}
