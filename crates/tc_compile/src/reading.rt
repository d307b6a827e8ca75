//! From a program's text to its flat code.
ghost use Rattle.std.specs.Prelude.{◌≤◌, length, IfOk, IfErr};
ghost use Rattle.tc_lexer.specs.tc_limits.declared.limits.TheConstants.{PROGRAM_BYTES};
ghost use Rattle.tc_compile.specs.Programs.{IsCodeOf, IsWhyNoCode};

use crate::fault::CompileFault;
use std::alloc::Global;
use tc_code::Code;
use tc_lower::lower;
use tc_parser::read;

/// The code of the program of this text.
///
/// A text has one code or one refusal, so only one answer is right, except that memory may run out.
pub fn compile(alloc: Global, text: &[u8]) -> Result<Code, CompileFault>
    requires { length text.now ≤ PROGRAM_BYTES }
    ensures found { IfOk result (IsCodeOf text.now) }
    ensures refused { IfErr result (IsWhyNoCode text.now) }
{
    let tree = read(alloc, text)?;
    Ok(lower(alloc, &tree)?)
}
