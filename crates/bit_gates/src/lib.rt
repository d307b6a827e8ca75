//! Gates over the literals of a circuit. No gate is added if its operands are constant, equal or
//! opposite: its value is then known, or is that of an operand.
#![tactic(auto)]

ghost use Rattle.std.specs.Prelude.{◌≡◌};
ghost use Rattle.bit_gates.specs.Folded.{constant};
ghost use Rattle.bit_gates.specs.Laws.{GatesMean};
ghost use Rattle.bit_gates.specs.Extended.{GatesExtend};

mod circuit;

pub use circuit::Circuit;
use cnf_core::Lit;

/// The literal of a gate has the gate's value in every model of the clauses.
pub fn gates_mean()
    ensures { GatesMean }
{}

/// Gates add only definitions: every model of the earlier clauses extends to one of all clauses.
pub fn gates_extend()
    ensures { GatesExtend }
{}

/// The literal of a constant.
pub fn constant(value: bool) -> Lit
    ensures { result ≡ constant value }
{
    Lit::new(1, !value)
}
