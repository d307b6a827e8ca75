//! Where a run failed.
ghost use Rattle.std.specs.Prelude.{◌≡◌, IsSome, Some};
ghost use Rattle.tc_code.specs.Run.{IsReached};
ghost use Rattle.tc_record.specs.Failing.{failing_line};

use store_buffers::MemoryModel;
use tc_code::Code;
use tc_machine::State;

/// The line of the instruction that failed.
pub(crate) fn line_of<M: MemoryModel>(code: &Code, state: &State<M>) -> u32
    requires reached { IsReached M.ops code.now state.now }
    requires fails { IsSome state.now.failed }
    ensures { failing_line code.now state.now ≡ Some result }
{
    let Some(name) = state.failed() else {
        unreachable!()
    };
    let Some((function, instruction)) = state.place_of(name) else {
        unreachable!()
    };
    let Some(line) = code.line(function, instruction) else {
        unreachable!()
    };
    line
}
