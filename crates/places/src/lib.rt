//! Places of a function: an instruction, and a round for each loop around it. Along each path of a
//! thread they rise, so that the places of a function make up a graph without cycles.
#![tactic(auto)]

ghost use Rattle.std.specs.Prelude.{◌≡◌, ◌<◌, ℕ, ℤ, List, Some, false, slice_get};
ghost use Rattle.std.specs.List.{Contains, list_any};
ghost use Rattle.tc_code.specs.Code.{Code};
ghost use Rattle.tc_code.specs.Step.{local_after};
ghost use Rattle.tc_code.specs.declared.code.Func.{Func};
ghost use Rattle.tc_code.specs.declared.instr.Instr.{Instr};
ghost use Rattle.tc_code.specs.run_log.tc_base.States.{Local};
ghost use Rattle.tc_compile.specs.Programs.{IsCodeOf};
ghost use Rattle.places.specs.Places.{Follow, HasPlaces, IsEarlier, IsReached, Place, first_place, is_cut, places_along, successors};

pub mod code_loops;
mod loops;
mod place;
mod reached;

pub use place::{Place, Round};
pub use reached::reached_places;

/// A thread goes from place to place as its instructions lead. Its places rise, so it is at each
/// at most once; and each is reached, unless one before it or itself is past a cut.
pub fn places_rise()
    ensures programs { (program : List ℕ) (code : Code) (number : ℕ) (function : Func)
        → IsCodeOf program code → slice_get code.functions number ≡ Some function → HasPlaces function.instrs }
    ensures steps { (t : Local) (i : Instr) (v : ℤ) → (local_after t i v).has_exited ≡ false
        → Contains (successors t.instruction i) (local_after t i v).instruction }
    ensures rise { (is : List Instr) (tos : List ℕ) (m n : ℕ) (p q : Place) → HasPlaces is → Follow is 0 tos → m < n
        → slice_get (places_along is (first_place is) tos) m ≡ Some p
        → slice_get (places_along is (first_place is) tos) n ≡ Some q → IsEarlier p q }
    ensures reached { (is : List Instr) (limits tos : List ℕ) (p : Place) → Follow is 0 tos
        → list_any (is_cut limits) (places_along is (first_place is) tos) ≡ false
        → Contains (places_along is (first_place is) tos) p → IsReached is limits p }
{}
