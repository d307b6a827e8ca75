//! Lists of clauses.
use anyhow::{Result, bail};
use cnf_core::{Assignment, Cnf, Gate, LIMIT, Lit, is_clause, is_within, satisfies};
use std::alloc::{AllocError, Global};
use std::mem::drop;
use test_table::given::Given;

/// The literal with this number, which isn't 0.
fn literal(number: i32) -> Result<Lit> {
    let variable = number.unsigned_abs();
    if variable == 0 || variable > 1 << 30 {
        bail!("no literal");
    }
    Ok(Lit::new(variable, number < 0))
}

/// No clauses, over this number of variables.
fn empty(alloc: Global, variables: u32) -> Result<Cnf> {
    if variables >= LIMIT {
        bail!("too many variables");
    }
    Ok(Cnf::new(alloc, variables))
}

/// Reads a number of variables and a list of clauses, each of which ends with 0.
pub(crate) fn read(alloc: Global, given: &mut Given) -> Result<Cnf> {
    let mut cnf = empty(alloc, given.number())?;
    given.before(": ");
    read_clauses(alloc, &mut cnf, given.before(": "))?;
    Ok(cnf)
}

fn read_clauses(alloc: Global, cnf: &mut Cnf, words: &str) -> Result<()> {
    let mut clause = Vec::new(alloc);
    for word in words.split_whitespace() {
        match word.parse::<i32>()? {
            0 => {
                push(cnf, clause.as_slice())?;
                clause.clear();
            }
            number => clause.push(literal(number)?)?,
        }
    }
    Ok(())
}

/// Adds a clause.
fn push(cnf: &mut Cnf, clause: &[Lit]) -> Result<()> {
    if !is_clause(clause) || !is_within(cnf.vars(), clause) {
        bail!("no clause");
    }
    if cnf.len() + 1 >= LIMIT as usize {
        bail!("too many clauses");
    }
    cnf.push(clause)?;
    Ok(())
}

/// The gate with this name.
fn gate_of(name: &str) -> Result<Gate> {
    match name {
        "and" => Ok(Gate::And),
        "or" => Ok(Gate::Or),
        "xor" => Ok(Gate::Xor),
        _ => bail!("no such gate"),
    }
}

/// The clauses of a gate over two literals of the variables 1 and 2. The gate's variable is 3.
fn gate_clauses(alloc: Global, gate: Gate, a: Lit, b: Lit) -> Result<Cnf> {
    if a.var() > 2 || b.var() > 2 {
        bail!("no such variable");
    }
    let mut cnf = Cnf::new(alloc, 2);
    let lit = match gate {
        Gate::And => cnf.and_gate(a, b),
        Gate::Or => cnf.or_gate(a, b),
        Gate::Xor => cnf.xor_gate(a, b),
    };
    if lit?.number() != 3 {
        bail!("another variable");
    }
    Ok(cnf)
}

/// All values of three variables.
const VALUES: [[bool; 3]; 8] = [
    [false, false, false],
    [false, false, true],
    [false, true, false],
    [false, true, true],
    [true, false, false],
    [true, false, true],
    [true, true, false],
    [true, true, true],
];

/// The values of the variables 1 to 3 that satisfy the clauses of a gate.
pub(crate) fn gate(alloc: Global, given: &mut Given) -> Result<String> {
    let gate = gate_of(given.word())?;
    let (a, b) = (literal(given.number())?, literal(given.number())?);
    let cnf = gate_clauses(alloc, gate, a, b)?;
    let told = satisfying(alloc, &cnf);
    drop(cnf);
    Ok(told?)
}

/// The values of three variables that satisfy a list, each value as a sign.
fn satisfying(alloc: Global, cnf: &Cnf) -> Result<String> {
    let mut told = String::new(alloc);
    for values in VALUES {
        let assignment = Assignment::new(Vec::from_slice(alloc, &values)?);
        if is_satisfied(cnf, &assignment) {
            push_signs(&mut told, values)?;
        }
    }
    Ok(told)
}

/// Whether an assignment has as many values as the list has variables, and satisfies it.
pub(crate) fn is_satisfied(cnf: &Cnf, assignment: &Assignment) -> bool {
    cnf.vars() as usize == assignment.vars() && satisfies(cnf, assignment)
}

/// Adds a sign for each value, and blanks between those of several assignments.
fn push_signs(told: &mut String, values: [bool; 3]) -> Result<(), AllocError> {
    if !told.is_empty() {
        told.push(' ')?;
    }
    for value in values {
        told.push(if value { '+' } else { '-' })?;
    }
    Ok(())
}
