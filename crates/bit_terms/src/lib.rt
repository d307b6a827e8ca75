//! Circuits of terms: one word of 32 literals for each, from the words of the loads' values.
#![tactic(auto)]

ghost use Rattle.std.specs.Prelude.{◌≡◌, ◌<◌, ◌≤◌, length, IfOk, IfSome, OnOk};
ghost use Rattle.std.specs.List.{All};
ghost use Rattle.sym_terms.specs.Terms.{NamesBelow};
ghost use Rattle.cnf_core.specs.Clauses.{var_of};
ghost use Rattle.bit_gates.specs.Folded.{HasRoom, IsLarger};
ghost use Rattle.bit_words.specs.Words.{AreWithin};
ghost use Rattle.int_ops.specs.declared.arith.UnOp.TheVariants.{Not};
ghost use Rattle.bit_ops.specs.Ops.{some_of};
ghost use Rattle.bit_ops.specs.Sizes.{unary_size};
ghost use Rattle.bit_terms.specs.Laws.{TermsMean, NonzeroMeans};
ghost use Rattle.bit_terms.specs.Sizes.{node_size, terms_size};
ghost use Rattle.bit_terms.specs.Terms.{are_opposite, constant_word, node_word, opposite_for, opposite_of, own_word, same_two, term_words, word_at};

use bit_gates::{Circuit, constant};
use bit_ops::{Word, binary, unary};
use bit_words::any;
use cnf_core::Lit;
use int_ops::{BinOp, UnOp};
use std::alloc::{AllocError, Global};
use sym_terms::{Id, Node, Terms};

/// The word of a term has the term's value in every model, and circuits add only gates.
pub fn terms_mean()
    ensures { TermsMean }
{}

/// The literal of [`nonzero`] is right in every model of the clauses, and only gates are added.
pub fn nonzero_means()
    ensures { NonzeroMeans }
{}

/// A word for each term, in order, from the words of the loads' values; a load past them has 0.
///
/// Fails if there is no memory; the circuits of some terms may exist then.
pub fn term_words(
    alloc: Global,
    circuit: &mut Circuit,
    terms: &Terms,
    symbols: &[Word],
) -> Result<Vec<Word>, AllocError>
    requires symbols { All (AreWithin circuit.old.vars) symbols.now }
    requires room { HasRoom (terms_size terms.now) circuit.old }
    ensures words { IfOk result (λ words. words.items ≡ (term_words terms.now symbols.now circuit.old).words) }
    ensures formula { OnOk result (circuit.new ≡ (term_words terms.now symbols.now circuit.old).formula) }
    ensures within { IfOk result (λ words. All (AreWithin circuit.new.vars) words.items) }
    ensures larger { OnOk result (IsLarger (terms_size terms.now) circuit.old circuit.new) }
{
    let mut words = Vec::with_capacity(alloc, terms.len())?;
    for node in terms.nodes() {
        let word = node_word(circuit, terms.nodes(), *node, symbols, words.as_slice())?;
        words.push(word)?;
    }
    Ok(words)
}

/// A literal that is true exactly if the word isn't 0.
pub fn nonzero(circuit: &mut Circuit, word: &Word) -> Result<Lit, AllocError>
    requires word { AreWithin circuit.old.vars word.now }
    requires room { HasRoom 96 circuit.old }
    ensures literal { IfOk result (λ l. l ≡ (some_of circuit.old word.now).literal) }
    ensures formula { OnOk result (circuit.new ≡ (some_of circuit.old word.now).formula) }
    ensures within { IfOk result (λ l. var_of l ≤ circuit.new.vars) }
    ensures larger { OnOk result (IsLarger 96 circuit.old circuit.new) }
{
    any(circuit, word)
}

/// The word of the next node, from the words of the nodes before it. A `!=` after the `==` of the
/// same two terms is its opposite, and so is an `==` after the `!=`; a search that decides one has
/// then decided both.
fn node_word(
    circuit: &mut Circuit,
    nodes: &[Node],
    node: Node,
    symbols: &[Word],
    known: &[Word],
) -> Result<Word, AllocError>
    requires names { NamesBelow (length known.now) node }
    requires there { length known.now ≤ length nodes.now }
    requires symbols { All (AreWithin circuit.old.vars) symbols.now }
    requires known { All (AreWithin circuit.old.vars) known.now }
    requires room { HasRoom (node_size node) circuit.old }
    ensures word { IfOk result (λ word. word
        ≡ (node_word symbols.now nodes.now (record { formula = circuit.old; words = known.now }) node).word) }
    ensures formula { OnOk result (circuit.new
        ≡ (node_word symbols.now nodes.now (record { formula = circuit.old; words = known.now }) node).state) }
    ensures within { IfOk result (λ word. AreWithin circuit.new.vars word) }
    ensures larger { OnOk result (IsLarger (node_size node) circuit.old circuit.new) }
{
    match opposite_for(nodes, known.len(), &node) {
        Some(place) => unary(circuit, UnOp::Not, &known[place]),
        None => own_word(circuit, node, symbols, known),
    }
}

/// The index of the first opposite of an `==` or `!=` after its two terms, among `count` nodes.
fn opposite_for(nodes: &[Node], count: usize, node: &Node) -> Option<usize>
    requires names { NamesBelow count node.now }
    requires there { count ≤ length nodes.now }
    ensures place { result ≡ opposite_for nodes.now count node.now }
    ensures below { IfSome result (λ place. place < count) }
    ensures size { IfSome result (λ place. unary_size Not ≤ node_size node.now) }
{
    match node {
        Node::Binary(BinOp::Eq, a, b) => opposite_of(nodes, count, node, *a, *b),
        Node::Binary(BinOp::Ne, a, b) => opposite_of(nodes, count, node, *a, *b),
        _ => None,
    }
}

/// The index of the first opposite of a node after two terms, among `count` nodes.
fn opposite_of(nodes: &[Node], count: usize, node: &Node, a: Id, b: Id) -> Option<usize>
    requires first { a < count }
    requires second { b < count }
    requires there { count ≤ length nodes.now }
    ensures place { result ≡ opposite_of nodes.now count node.now a b }
    ensures below { IfSome result (λ place. place < count) }
{
    for place in a.place().max(b.place()) + 1..count {
        if are_opposite(node, &nodes[place]) {
            return Some(place);
        }
    }
    None
}

/// Whether one node is the `==` and one the `!=` of the same two terms, either way round.
fn are_opposite(one: &Node, other: &Node) -> bool
    ensures { result ≡ are_opposite one.now other.now }
{
    match (one, other) {
        (Node::Binary(BinOp::Eq, a, b), Node::Binary(BinOp::Ne, c, d)) => same_two(*a, *b, *c, *d),
        (Node::Binary(BinOp::Ne, a, b), Node::Binary(BinOp::Eq, c, d)) => same_two(*a, *b, *c, *d),
        _ => false,
    }
}

/// Whether two terms are the same as two others, either way round.
fn same_two(a: Id, b: Id, c: Id, d: Id) -> bool
    ensures { result ≡ same_two a b c d }
{
    c == a && d == b || c == b && d == a
}

/// The word of a node on its own, from the words of the nodes before it.
fn own_word(
    circuit: &mut Circuit,
    node: Node,
    symbols: &[Word],
    known: &[Word],
) -> Result<Word, AllocError>
    requires names { NamesBelow (length known.now) node }
    requires symbols { All (AreWithin circuit.old.vars) symbols.now }
    requires known { All (AreWithin circuit.old.vars) known.now }
    requires room { HasRoom (node_size node) circuit.old }
    ensures word { IfOk result (λ word. word ≡ (own_word symbols.now known.now circuit.old node).word) }
    ensures formula { OnOk result (circuit.new ≡ (own_word symbols.now known.now circuit.old node).state) }
    ensures within { IfOk result (λ word. AreWithin circuit.new.vars word) }
    ensures larger { OnOk result (IsLarger (node_size node) circuit.old circuit.new) }
{
    let _one = circuit.vars();
    match node {
        Node::Constant(value) => Ok(constant_word(value)),
        Node::Symbol(load) => Ok(word_at(symbols, load as usize)),
        Node::Unary(op, a) => unary(circuit, op, &known[a.place()]),
        Node::Binary(op, a, b) => binary(circuit, op, &known[a.place()], &known[b.place()]),
    }
}

/// The word at a place, or that of 0 past the last.
pub fn word_at(words: &[Word], place: usize) -> Word
    ensures { result ≡ word_at words.now place }
{
    words.get(place).copied().unwrap_or([constant(false); 32])
}

/// The word of a number.
pub fn constant_word(value: i32) -> Word
    ensures { result ≡ constant_word value }
{
    let bits = value.cast_unsigned();
    let mut word = [constant(false); 32];
    for place in 0..32 {
        word[place] = constant(bits >> place & 1 == 1);
    }
    word
}
