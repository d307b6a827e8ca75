//! Laws of the machine, for every buffer. Each function states a law, and its body does nothing.
ghost use Rattle.std.specs.Prelude.{◌↔◌, IsSome, IsNone};
ghost use Rattle.tc_base.specs.Buffers.{BufferOps};
ghost use Rattle.tc_base.specs.States.{State};
ghost use Rattle.tc_base.specs.declared.moves.Move.{Move};
ghost use Rattle.tc_code.specs.Code.{Code};
ghost use Rattle.tc_code.specs.Step.{step};
ghost use Rattle.tc_machine.specs.Why.{why};

/// A move is enabled if and only if there is no reason against it.
#[tactic(auto)]
pub fn no_reason_where_enabled<B>()
    ensures { (ops : BufferOps B) (code : Code) (s : State B) (m : Move)
        → IsNone (why ops code s m) ↔ IsSome (step ops code s m) }
{}
