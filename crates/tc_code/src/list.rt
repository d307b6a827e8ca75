//! The listing of code.
ghost use Rattle.std.specs.Prelude.{◌≡◌, ◌++◌, IfOk, OnOk, length};
ghost use Rattle.tc_code.specs.Listing.{listing_of, head_text, instrs_text, row_text};

use crate::{Code, Func, Instr};
use std::alloc::{AllocError, Global};

/// The listing of code. For each function, it has a line with the name and the numbers of
/// parameters, int slots and handles. A line for each instruction follows, with its number in the
/// function, its line in the text and what it does. Cells, slots, mutexes, conditions, functions
/// and places are given by number.
pub fn listing(alloc: Global, code: &Code) -> Result<Vec<u8>, AllocError>
    ensures { IfOk result (λ bytes. bytes.items ≡ listing_of code.now) }
{
    let mut out = Vec::new(alloc);
    for f in code.functions() {
        list_head(alloc, &mut out, f)?;
        list_instrs(alloc, &mut out, f)?;
    }
    Ok(out)
}

fn list_head(alloc: Global, out: &mut Vec<u8>, f: &Func) -> Result<(), AllocError>
    ensures { OnOk result (out.new.items ≡ out.old.items ++ head_text f.now) }
{
    out.extend_from_slice(f.name.as_bytes())?;
    let counts = format!(in alloc; " {} {} {}\n", f.params, f.ints, f.handles)?;
    out.extend_from_slice(counts.as_bytes())
}

fn list_instrs(alloc: Global, out: &mut Vec<u8>, f: &Func) -> Result<(), AllocError>
    requires { length f.now.lines ≡ length f.now.instrs }
    ensures { OnOk result (out.new.items ≡ out.old.items ++ instrs_text f.now) }
{
    let lines = f.lines.as_slice();
    for (number, instr) in f.instrs.as_slice().iter().enumerate() {
        list_row(alloc, out, number, lines[number], instr)?;
    }
    Ok(())
}

fn list_row(
    alloc: Global,
    out: &mut Vec<u8>,
    number: usize,
    line: u32,
    instr: &Instr,
) -> Result<(), AllocError>
    ensures { OnOk result (out.new.items ≡ out.old.items ++ row_text number line instr.now) }
{
    let row = format!(in alloc; "{number} {line} {instr}\n")?;
    out.extend_from_slice(row.as_bytes())
}
