//! Programs as code.
ghost use Rattle.std.specs.Prelude.{◌≡◌, ℤ, pos, ◌+◌, ◌<◌, ◌≤◌, ◌^◌, ◌++◌, ◌∷◌, [], length, map, codes, OnOk, IfOk};
ghost use Rattle.tc_code.specs.tc_limits.declared.limits.TheConstants.{CELLS, PROGRAM_BYTES};
ghost use Rattle.tc_tree.specs.Counts as count;
ghost use Rattle.tc_tree.specs.Numbers.{HasInts};
ghost use Rattle.tc_tree.specs.Grammar.{program_words};
ghost use Rattle.tc_tree.specs.Seen.{body_of, thread_of, program_of};
ghost use Rattle.tc_lower.specs.Lowering as spec;
ghost use Rattle.tc_lower.specs.helpers.Programs.{BodyFits, ThreadsFit};

use crate::draft::Draft;
use crate::statement::Body as Code;
use crate::tables::{ProgramThings, elements, own_things, program_things};
use crate::things::{Named, Scope};
use crate::value::Writer;
use int_ops::{UnOp, arith};
use std::alloc::{AllocError, Global as Heap};
use tc_code::{Func, FuncName, Instr, Lines};
use tc_tree::{Body, Global, Initial, Name, Program, Thread, Tree};

/// The code of a program: each thread is a function, and main is the last.
///
/// It relies on what is known of each tree that was read: its cells fit, it has no more tokens than
/// a text may have bytes, and its numbers are ints. A name without a declaration or of a wrong kind
/// has no code: the rules for names exclude it.
pub fn lower(alloc: Heap, tree: &Tree) -> Result<tc_code::Code, AllocError>
    requires cells { count.cells (program_of tree.now.program).globals ≤ CELLS }
    requires few { length (program_words (program_of tree.now.program)) ≤ PROGRAM_BYTES }
    requires ints { HasInts (program_of tree.now.program) }
    ensures { IfOk result (λ code. code ≡ spec.code_of tree.now.text.now (program_of tree.now.program)) }
{
    let program = &tree.program;
    let ProgramThings { names, numbers } = program_things(alloc, program)?;
    let memory = memory_of(alloc, program.globals.as_slice())?;
    let functions = functions_of(alloc, tree.text, names.as_slice(), program)?;
    Ok(tc_code::Code::new(memory, numbers.mutexes, numbers.conditions, functions))
}

/// The functions of the threads, and then main.
fn functions_of(
    alloc: Heap,
    source: &[u8],
    all: &[Named],
    program: &Program,
) -> Result<Vec<Func>, AllocError>
    requires threads { ThreadsFit source.now all.now (map thread_of program.now.threads.items) }
    requires main { BodyFits source.now all.now [] (body_of program.now.main) }
    ensures { IfOk result (λ fs. fs.items ≡ map (spec.thread_function source.now all.now) (map thread_of program.now.threads.items)
        ++ spec.function_of source.now all.now (codes "main") [] (body_of program.now.main) ∷ []) }
{
    let mut functions = Vec::new(alloc);
    let mut rest = program.threads.as_slice();
    while let [thread, later @ ..] = rest {
        functions.push(thread_function(alloc, source, all, thread)?)?;
        rest = later;
    }
    let main = function_of(alloc, source, all, b"main", &[], &program.main)?;
    functions.push(main)?;
    Ok(functions)
}

fn thread_function(
    alloc: Heap,
    source: &[u8],
    all: &[Named],
    thread: &Thread,
) -> Result<Func, AllocError>
    requires { BodyFits source.now all.now thread.now.parameters.items (body_of thread.now.body) }
    ensures { IfOk result (λ f. f ≡ spec.thread_function source.now all.now (thread_of thread.now)) }
{
    let name = thread.name.text(source);
    let parameters = thread.parameters.as_slice();
    function_of(alloc, source, all, name, parameters, &thread.body)
}

/// The function of a body with these parameters.
fn function_of(
    alloc: Heap,
    source: &[u8],
    all: &[Named],
    name: &[u8],
    parameters: &[Name],
    body: &Body,
) -> Result<Func, AllocError>
    requires { BodyFits source.now all.now parameters.now (body_of body.now) }
    ensures { IfOk result (λ f. f ≡ spec.function_of source.now all.now name.now parameters.now (body_of body.now)) }
{
    let own = own_things(alloc, parameters, body.locals.as_slice())?;
    let scope = Scope {
        source,
        own: own.names.as_slice(),
        all,
    };
    let mut code = Code::new(alloc, own.slots);
    code.write_all(alloc, scope, body.block.statements.as_slice())?;
    let name = name_of(alloc, name)?;
    code.finish(
        name,
        parameters.len() as u32,
        own.handles,
        body.block.end.line,
    )
}

fn name_of(alloc: Heap, text: &[u8]) -> Result<FuncName, AllocError>
    ensures { IfOk result (λ name. name ≡ text.now) }
{
    let mut bytes = Vec::new(alloc);
    bytes.extend_from_slice(text)?;
    Ok(FuncName::new(bytes))
}

/// The initial value of each cell.
fn memory_of(alloc: Heap, globals: &[Global]) -> Result<Vec<i32>, AllocError>
    requires { count.cells globals.now ≤ CELLS }
    ensures { IfOk result (λ memory. memory.items ≡ spec.memory_of globals.now) }
{
    let mut memory = Vec::new(alloc);
    let mut rest = globals;
    while let [global, later @ ..] = rest {
        add_cells(&mut memory, global)?;
        rest = later;
    }
    Ok(memory)
}

/// The cells of the next global.
fn add_cells(memory: &mut Vec<i32>, global: &Global) -> Result<(), AllocError>
    requires { length memory.old.items + count.cells_of global.now ≤ CELLS }
    ensures { OnOk result (memory.new.items ≡ memory.old.items ++ spec.memory_of (global.now ∷ [])) }
{
    match global {
        Global::Int(_, initial) => memory.push(initial_value(initial))?,
        Global::Array(_, size) => {
            let length = memory.len() + elements(size.value) as usize;
            memory.resize(length, 0)?;
        }
        Global::Mutex(_) | Global::Condition(_) => {}
    }
    Ok(())
}

fn initial_value(initial: &Initial) -> i32
    ensures { result ≡ spec.initial_value initial.now }
{
    match initial {
        Initial::Zero => 0,
        Initial::Plain(number) => number.value,
        Initial::Negated(number) => arith::unary(UnOp::Neg, number.value),
    }
}
