//! How many variables and clauses the states of a mutex add at most, as far as that can be counted.
ghost use Rattle.std.specs.Prelude.{◌≡◌, ◌+◌, ◌*◌, ℕ, length, filter, if◌then◌else◌};
ghost use Rattle.mutex_clauses.specs.shapes.Termed.{termed_steps};
ghost use Rattle.std.specs.List.{sum_by};
ghost use Rattle.bit_ops.specs.Sizes as operators;
ghost use Rattle.bit_terms.specs.Sizes as circuits;
ghost use Rattle.mutex_regions.specs.Functions.{is_closed};
ghost use Rattle.mutex_states.specs.InOrder.{is_of_mutex as is_about};
ghost use Rattle.mutex_states.specs.Sizes as spec;
ghost use Rattle.mutex_clauses.specs.helpers.Counted.{counted};

use crate::in_order::is_of_mutex;
use crate::shapes::{Shape, TermedSteps};
use crate::steps::Step;
use int_ops::{BinOp, UnOp};
use mutex_regions::Doing;
use order_formula::Conjunct;
use sym_terms::{Node, Terms};

/// A sum, as far as it can be counted.
fn sum(a: usize, b: usize) -> usize
    ensures sum { (x y : ℕ) → a ≡ counted x → b ≡ counted y → result ≡ counted (x + y) }
    ensures first { a ≡ counted a }
    ensures second { b ≡ counted b }
{
    a.saturating_add(b)
}

/// A product, as far as it can be counted.
fn product(a: usize, b: usize) -> usize
    ensures product { (x y : ℕ) → a ≡ counted x → b ≡ counted y → result ≡ counted (x * y) }
    ensures first { a ≡ counted a }
    ensures second { b ≡ counted b }
{
    a.saturating_mul(b)
}

/// The size of the circuit of an operator on one word.
fn unary_size(op: UnOp) -> usize
    ensures { result ≡ operators.unary_size op }
{
    match op {
        UnOp::Neg => 544,
        UnOp::Not => 96,
        UnOp::Inv => 0,
    }
}

/// The size of the circuit of an operator on two words.
fn binary_size(op: BinOp) -> usize
    ensures { result ≡ operators.binary_size op }
{
    match op {
        BinOp::Add => 544,
        BinOp::Sub => 544,
        BinOp::Mul => 21_504,
        BinOp::Div => 28_868,
        BinOp::Rem => 28_864,
        BinOp::And => 128,
        BinOp::Or => 128,
        BinOp::Xor => 128,
        BinOp::Shl => 1_664,
        BinOp::Shr => 1_664,
        BinOp::Eq => 224,
        BinOp::Ne => 224,
        BinOp::Lt => 384,
        BinOp::Le => 384,
        BinOp::Gt => 384,
        BinOp::Ge => 384,
    }
}

/// The size of the circuit of a term.
fn node_size(node: Node) -> usize
    ensures { result ≡ counted (circuits.node_size node) }
{
    match node {
        Node::Constant(_) => 0,
        Node::Symbol(_) => 0,
        Node::Unary(op, _) => unary_size(op),
        Node::Binary(op, _, _) => binary_size(op),
    }
}

/// The size of the circuits of terms.
fn terms_size(terms: &Terms) -> usize
    ensures { result ≡ counted (circuits.terms_size terms.now) }
{
    let mut size = 0;
    for node in terms.nodes() {
        size = sum(size, node_size(*node));
    }
    size
}

/// The size of the clauses of ranks.
fn ranks_size(regions: usize) -> usize
    ensures { result ≡ counted (spec.ranks_size regions) }
{
    product(regions, product(regions, sum(regions, 1)))
}

/// The size of the clauses of one rank.
fn rank_size(regions: usize) -> usize
    ensures { result ≡ counted (spec.rank_size regions) }
{
    sum(product(3, regions), sum(product(regions, regions), 1))
}

/// The size of a shape at one rank.
fn shape_size(regions: usize, shape: &Shape) -> usize
    ensures { result ≡ counted (spec.shape_size regions shape.now) }
{
    sum(product(shape.terms.len(), 64), sum(regions, 2))
}

/// The size of all shapes at one rank.
fn shapes_size(regions: usize, shapes: &[Shape]) -> usize
    ensures { result ≡ counted (sum_by (spec.shape_size regions) shapes.now) }
{
    let mut size = 0;
    for shape in shapes {
        size = sum(size, shape_size(regions, shape));
    }
    size
}

/// The size of what a region leaves in the cells at one rank.
fn cells_size(does: &Doing) -> usize
    ensures { result ≡ counted (if is_closed does.now then 0 else length does.now.cells * 64) }
{
    if does.is_closed() {
        0
    } else {
        product(does.cells.len(), 64)
    }
}

/// The size of the loads of a region at one rank.
fn loads_size(does: &Doing) -> usize
    ensures { result ≡ counted (length does.now.loads * 64) }
{
    product(does.loads.len(), 64)
}

/// The size of the tests of a region at one rank.
fn tests_size(step: &Step) -> usize
    ensures { result ≡ counted (length step.now.tests * 32) }
{
    product(step.tests.len(), 32)
}

/// The size of a region at one rank.
fn region_size(step: &Step) -> usize
    ensures { result ≡ counted (spec.region_size step.now) }
{
    let cells = cells_size(&step.does);
    let loads = loads_size(&step.does);
    sum(cells, sum(loads, tests_size(step)))
}

/// The size of all regions at one rank.
fn regions_size(steps: &[Step]) -> usize
    ensures { result ≡ counted (sum_by spec.region_size steps.now) }
{
    let mut size = 0;
    for step in steps {
        size = sum(size, region_size(step));
    }
    size
}

/// The number of conjuncts about two regions of a mutex.
pub(crate) fn count_conjuncts(conjuncts: &[Conjunct], mutex: u32) -> usize
    ensures { result ≡ length (filter (λ c. is_about mutex c.group) conjuncts.now) }
{
    let mut count = 0;
    for conjunct in conjuncts {
        if is_of_mutex(mutex, conjunct.group) {
            count += 1;
        }
    }
    count
}

/// The numbers that tell how large the states of a mutex are.
#[derive(Clone, Copy)]
pub(crate) struct Counts {
    /// How many cells the state has.
    pub(crate) cells: usize,
    /// How many conjuncts are about two regions of the mutex.
    pub(crate) conjuncts: usize,
    /// How many accesses to the cells lie in regions.
    pub(crate) used: usize,
    /// How many accesses there are.
    pub(crate) accesses: usize,
}

impl Counts {
    /// The size of the literal that all is in order.
    fn order_size(self, regions: usize) -> usize
        ensures { result ≡ counted (spec.order_size self.conjuncts regions self.used) }
    {
        let pairs = product(self.used, sum(3, self.used));
        let literals = sum(
            self.conjuncts,
            sum(regions, sum(product(regions, regions), pairs)),
        );
        sum(product(literals, 3), product(self.used, 387))
    }

    /// The size of the state after a rank.
    fn turn_size(self, steps: &[Step], termed: &TermedSteps) -> usize
        requires { termed.now ≡ termed_steps self.cells steps.now }
        ensures { result ≡ counted (spec.turn_size self.cells steps.now) }
    {
        let shapes = shapes_size(steps.len(), termed.shapes.as_slice());
        let clauses = sum(shapes, regions_size(steps));
        let variables = sum(product(32, self.cells), 1);
        sum(terms_size(&termed.terms), sum(variables, clauses))
    }

    /// The size of the loads after all regions.
    fn last_size(self, regions: usize) -> usize
        ensures { result ≡ counted (spec.last_size regions self.cells self.accesses) }
    {
        let gates = product(sum(regions, 1), 3);
        product(self.accesses, sum(gates, product(self.cells, 64)))
    }

    /// The size of all clauses of a mutex.
    pub(crate) fn states_size(self, steps: &[Step], termed: &TermedSteps) -> usize
        requires { termed.now ≡ termed_steps self.cells steps.now }
        ensures { result ≡ counted (spec.states_size self.cells steps.now self.conjuncts self.used self.accesses) }
    {
        let regions = steps.len();
        let ranks = sum(self.order_size(regions), ranks_size(regions));
        let turn = sum(rank_size(regions), self.turn_size(steps, termed));
        sum(ranks, sum(product(regions, turn), self.last_size(regions)))
    }
}
