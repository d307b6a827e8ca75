//! The clauses of an order, its terms and the literals of a formula, before any is asserted.
ghost use Rattle.std.specs.Prelude.{◌≡◌, ◌<◌, ◌≤◌, ◌+◌, length, IfOk, OnOk};
ghost use Rattle.std.specs.List.{All};
ghost use Rattle.cnf_core.specs.declared.cnf.TheConstants.{LIMIT};
ghost use Rattle.order_formula.specs.Formulas.{IsOf};
ghost use Rattle.order_formula.specs.Orders.{ConjunctIsIn, IsOrder};
ghost use Rattle.bit_gates.specs.Folded.{HasRoom, IsLarger};
ghost use Rattle.bit_ops.specs.bit_words.Words.{AreWithin};
ghost use Rattle.bit_order.specs.Comparators.{completed, ordered};
ghost use Rattle.bit_terms.specs.Sizes.{terms_size};
ghost use Rattle.bit_blast.specs.Blasted.{layout_of};
ghost use Rattle.bit_blast.specs.Contended.{contended};
ghost use Rattle.bit_blast.specs.Drafts.{DraftIsWithin, drafted};
ghost use Rattle.bit_blast.specs.Sizes.{IsUpTo, bodies_size, draft_size};
ghost use Rattle.bit_blast.specs.Whole.{clauses_with_roots, clauses_with_terms, load_words};

use crate::contended::contended;
use crate::roots::roots;
use bit_gates::Circuit;
use bit_ops::Word;
use bit_order::{Layout, complete};
use bit_terms::term_words;
use cnf_core::Lit;
use order_formula::{Formula, Order};
use std::alloc::{AllocError, Global};
use std::marker::Model;
use sym_terms::Terms;

/// The clauses of a formula over an order of events, before its conjuncts are asserted. Clauses may
/// be added that hold in every world, for some values of their new variables.
#[derive(Debug, Drop)]
pub struct Draft {
    /// The layout of the order and the loads.
    pub layout: Layout,
    /// The clauses.
    pub circuit: Circuit,
    /// The word of each term.
    pub words: Vec<Word>,
    /// The literal of each conjunct.
    pub roots: Vec<Lit>,
}

impl Model for Draft {
    ghost use Rattle.bit_blast.specs.Drafts.{Draft as PlainDraft};

    ghost Value = { PlainDraft };

    ghost view = { λ d. record { layout = d.layout; clauses = d.circuit; words = d.words.items; roots = d.roots.items } };
}

impl Draft {
    /// The draft of a formula over terms, `loads` loads and an order that asks about all it uses.
    pub fn new(
        alloc: Global,
        terms: &Terms,
        formula: &Formula,
        order: Order,
        loads: u32,
    ) -> Result<Draft, AllocError>
        requires terms { IsOf (length terms.now) formula.now }
        requires events { order.events ≤ 256 }
        requires within { All (ConjunctIsIn order) formula.now }
        requires room { draft_size (record { order = order; loads = loads }) terms.now formula.now < LIMIT }
        ensures draft { IfOk result (λ draft. draft ≡ drafted terms.now formula.now (layout_of order loads formula.now)) }
        ensures lawful { IfOk result (λ draft. IsOrder draft.layout.order) }
        ensures within { IfOk result (λ draft. DraftIsWithin draft) }
        ensures count { IfOk result (λ draft. length draft.roots ≡ length formula.now) }
        ensures size { IfOk result (λ draft. IsUpTo (draft_size (record { order = order; loads = loads }) terms.now formula.now) draft.clauses) }
    {
        let order = complete_order(alloc, order, formula)?;
        draft_over(alloc, terms, formula, order, loads)
    }
}

/// The draft over an order that asks about the contended events too.
fn draft_over(
    alloc: Global,
    terms: &Terms,
    formula: &Formula,
    order: Order,
    loads: u32,
) -> Result<Draft, AllocError>
    requires terms { IsOf (length terms.now) formula.now }
    requires events { order.events ≤ 256 }
    requires room { draft_size (record { order = order; loads = loads }) terms.now formula.now < LIMIT }
    ensures draft { IfOk result (λ draft. draft ≡ drafted terms.now formula.now (record { order = order; loads = loads })) }
    ensures lawful { IfOk result (λ draft. IsOrder draft.layout.order) }
    ensures within { IfOk result (λ draft. DraftIsWithin draft) }
    ensures count { IfOk result (λ draft. length draft.roots ≡ length formula.now) }
    ensures size { IfOk result (λ draft. IsUpTo (draft_size (record { order = order; loads = loads }) terms.now formula.now) draft.clauses) }
{
    let (layout, mut circuit) = Layout::clauses(alloc, order, loads)?;
    let (words, roots) = add_system(alloc, &mut circuit, &layout, terms, formula)?;
    Ok(Draft {
        layout,
        circuit,
        words,
        roots,
    })
}

/// Adds the clauses of the terms and of the literals of conjuncts to those of the order, and
/// returns the words and the literals.
fn add_system(
    alloc: Global,
    circuit: &mut Circuit,
    layout: &Layout,
    terms: &Terms,
    formula: &Formula,
) -> Result<(Vec<Word>, Vec<Lit>), AllocError>
    requires ordered { circuit.old ≡ ordered layout.now }
    requires lawful { IsOrder layout.now.order }
    requires terms { IsOf (length terms.now) formula.now }
    requires room { HasRoom (terms_size terms.now + bodies_size formula.now) circuit.old }
    ensures formula { OnOk result (circuit.new ≡ (clauses_with_roots layout.now terms.now formula.now).state) }
    ensures words { IfOk result (λ made. made.0.items ≡ (clauses_with_terms layout.now terms.now).words) }
    ensures roots { IfOk result (λ made. made.1.items ≡ (clauses_with_roots layout.now terms.now formula.now).word) }
    ensures count { IfOk result (λ made. length made.1.items ≡ length formula.now) }
    ensures words_within { IfOk result (λ made. All (AreWithin circuit.new.vars) made.0.items) }
    ensures roots_within { IfOk result (λ made. AreWithin circuit.new.vars made.1.items) }
    ensures larger { OnOk result (IsLarger (terms_size terms.now + bodies_size formula.now) circuit.old circuit.new) }
{
    let symbols = load_words(alloc, layout)?;
    let words = term_words(alloc, circuit, terms, symbols.as_slice())?;
    let roots = roots(alloc, circuit, layout, words.as_slice(), formula)?;
    Ok((words, roots))
}

/// The words of the loads' values.
pub fn load_words(alloc: Global, layout: &Layout) -> Result<Vec<Word>, AllocError>
    ensures { IfOk result (λ words. words.items ≡ load_words layout.now) }
{
    let mut words = Vec::with_capacity(alloc, layout.loads() as usize)?;
    for load in 0..layout.loads() {
        words.push(layout.load(load))?;
    }
    Ok(words)
}

/// The order, with all pairs of contended events added.
#[tactic(auto, using(crate::proofs::Completed::completed_events, crate::proofs::Completed::completed_sleeps))]
fn complete_order(alloc: Global, order: Order, formula: &Formula) -> Result<Order, AllocError>
    requires events { order.events ≤ 256 }
    requires within { All (ConjunctIsIn order) formula.now }
    ensures completed { IfOk result (λ made. made ≡ completed order (contended formula.now)) }
    ensures events { IfOk result (λ made. made.events ≡ order.events) }
    ensures sleeps { IfOk result (λ made. made.sleeps ≡ order.sleeps) }
{
    let mut order = order;
    let events = contended(alloc, formula)?;
    complete(&mut order, events.as_slice())?;
    Ok(order)
}
