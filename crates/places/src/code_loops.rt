//! The loops of a program's code: each ends with a goto back to its first instruction, they nest or
//! lie apart, and nothing jumps into one but to its first instruction.

ghost use Rattle.std.specs.Prelude.{◌≡◌, ◌⊎◌, ◌<◌, ◌≤◌, ℕ, List, Some, slice_get};
ghost use Rattle.tc_code.specs.Code.{Code};
ghost use Rattle.tc_code.specs.declared.code.Func.{Func};
ghost use Rattle.tc_code.specs.declared.instr.Instr.{Instr};
ghost use Rattle.tc_compile.specs.Programs.{IsCodeOf};
ghost use Rattle.places.specs.code_loops.Loops.{IsLoop, LoopsNest};

/// In each function of a program's code a jump back ends a loop, and a jump from outside a loop
/// leads to its first instruction or past the loop. So of two loops, the one that ends first ends
/// before the other begins, or is inside it.
pub fn loops_nest()
    ensures entered { (program : List ℕ) (code : Code) (number : ℕ) (function : Func)
        → IsCodeOf program code → slice_get code.functions number ≡ Some function → LoopsNest function.instrs }
    ensures nested { (is : List Instr) (first last begin end : ℕ)
        → LoopsNest is → IsLoop is first last → IsLoop is begin end → last < end → (last < begin) ⊎ (begin ≤ first) }
{}
