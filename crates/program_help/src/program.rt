//! Describes a program, and says how near it is to its limits.
ghost use Rattle.std.specs.Prelude.{◌≤◌, length};
ghost use Rattle.tc_limits.specs.declared.limits.TheConstants.{PROGRAM_BYTES};

use crate::counts::{longest_stretch, most_open};
use crate::source::{Source, word_of};
use std::alloc::{AllocError, Global as Heap};
use tc_code::{Code, Func, Instr};
use tc_lexer::{Keyword, TokenKind, lex};
use tc_limits::limits::{
    BRACKETS, CELLS, CONDITIONS, DEPTH, EVENTS, MUTEXES, OPERATORS, PROGRAM_BYTES, STRETCH, THREADS,
};
use tc_tree::{Global, Initial, Name, Program, Thread};

/// Describes a program: its globals, its threads, and its limits.
pub fn describe(
    alloc: Heap,
    text: &[u8],
    program: &Program,
    code: &Code,
) -> Result<String, AllocError>
    requires { length text.now ≤ PROGRAM_BYTES }
{
    let Ok(tokens) = lex(alloc, text) else {
        return Err(AllocError);
    };
    let source = Source {
        text,
        tokens: tokens.as_slice(),
    };
    let mut out = String::new(alloc);
    push_program(&mut out, source, program, code)?;
    Ok(out)
}

/// Adds the parts of a program.
fn push_program(
    out: &mut String,
    source: Source,
    program: &Program,
    code: &Code,
) -> Result<(), AllocError> {
    out.push_str("globals\n")?;
    for global in &program.globals {
        push_global(out, source.text, global)?;
    }
    out.push_str("threads\n")?;
    for (thread, function) in program.threads.iter().zip(code.functions().iter()) {
        push_thread(out, source.text, thread, function)?;
    }
    push_main(out, source, code)?;
    out.push_str("limits\n")?;
    push_text_limits(out, source)?;
    push_code_limits(out, code)
}

/// The name of a global.
fn name_of(global: &Global) -> &Name {
    match global {
        Global::Int(name, _)
        | Global::Array(name, _)
        | Global::Mutex(name)
        | Global::Condition(name) => name,
    }
}

/// Adds a global, with the number of its line.
fn push_global(out: &mut String, text: &[u8], global: &Global) -> Result<(), AllocError> {
    let name = name_of(global);
    let (line, word) = (name.place.line, word_of(text, name));
    match global {
        Global::Int(_, initial) => {
            let (sign, value) = value_of(initial);
            writeln!(out, "  line {line}: int {word} = {sign}{value}")
        }
        Global::Array(_, length) => {
            let length = length.value;
            writeln!(out, "  line {line}: int {word}[{length}]")
        }
        Global::Mutex(_) => writeln!(out, "  line {line}: mutex {word}"),
        Global::Condition(_) => writeln!(out, "  line {line}: cond {word}"),
    }
}

/// The first value of an int: its sign, and its number.
fn value_of(initial: &Initial) -> (&'static str, i32) {
    match initial {
        Initial::Zero => ("", 0),
        Initial::Plain(number) => ("", number.value),
        Initial::Negated(number) => ("-", number.value),
    }
}

/// Adds a thread, with the number of its line.
fn push_thread(
    out: &mut String,
    text: &[u8],
    thread: &Thread,
    function: &Func,
) -> Result<(), AllocError> {
    let line = thread.name.place.line;
    let name = word_of(text, &thread.name);
    write!(out, "  line {line}: {name}(")?;
    push_parameters(out, text, thread.parameters.as_slice())?;
    out.push_str("): ")?;
    push_function(out, function)
}

/// Adds the parameters of a thread.
fn push_parameters(out: &mut String, text: &[u8], names: &[Name]) -> Result<(), AllocError> {
    let mut before = "int";
    for name in names {
        let word = word_of(text, name);
        write!(out, "{before} {word}")?;
        before = ", int";
    }
    Ok(())
}

/// Adds main, which is the last function, with the number of its line.
fn push_main(out: &mut String, source: Source, code: &Code) -> Result<(), AllocError> {
    let Some(main) = code.functions().last() else {
        return Ok(());
    };
    let mut line = 1;
    for token in source.tokens {
        if matches!(token.kind, TokenKind::Keyword(Keyword::Main)) {
            line = token.place.line;
        }
    }
    write!(out, "  line {line}: main: ")?;
    push_function(out, main)
}

/// Adds the number of instructions of each kind in a function.
fn push_function(out: &mut String, function: &Func) -> Result<(), AllocError> {
    let instrs = function.instrs.as_slice();
    let whole = instrs.len();
    let branches = instrs.iter().filter(|it| is_branch(it)).count();
    let sites = instrs.iter().filter(|it| is_site(it)).count();
    let creates = instrs.iter().filter(|it| is_create(it)).count();
    writeln!(
        out,
        "instructions {whole}, branches {branches}, sites {sites}, creates {creates}"
    )
}

fn is_branch(instr: &Instr) -> bool {
    matches!(instr, Instr::Branch { .. })
}

fn is_create(instr: &Instr) -> bool {
    matches!(instr, Instr::Create { .. })
}

/// Whether the instruction can fail.
fn is_site(instr: &Instr) -> bool {
    matches!(
        instr,
        Instr::Inside { .. }
            | Instr::Holds { .. }
            | Instr::Ready { .. }
            | Instr::Assert(_)
            | Instr::Nonzero(_)
            | Instr::InRange(_)
    )
}

/// Adds how near the text is to its limits.
fn push_text_limits(out: &mut String, source: Source) -> Result<(), AllocError> {
    let stretch = "tokens in a row without `;`, `{` or `}`";
    let counts = [
        ("bytes", source.text.len(), PROGRAM_BYTES as usize),
        ("brackets open at once", most_open(source), BRACKETS),
        (stretch, longest_stretch(source), STRETCH),
    ];
    push_limits(out, &counts)
}

/// Adds how near the code is to its limits, and those of a run.
fn push_code_limits(out: &mut String, code: &Code) -> Result<(), AllocError> {
    let counts = [
        ("cells", code.memory().len(), CELLS),
        ("mutexes", code.mutexes() as usize, MUTEXES),
        ("conditions", code.conditions() as usize, CONDITIONS),
    ];
    push_limits(out, &counts)?;
    writeln!(
        out,
        "  in a run: at most {THREADS} threads, created at most {DEPTH} deep"
    )?;
    writeln!(
        out,
        "  in a log to be solved: at most {EVENTS} events and {OPERATORS} operators"
    )
}

/// Adds counts, each with its limit.
fn push_limits(
    out: &mut String,
    counts: &[(&'static str, usize, usize)],
) -> Result<(), AllocError> {
    for (what, number, limit) in counts {
        writeln!(out, "  {what}: {number} of {limit}")?;
    }
    Ok(())
}
