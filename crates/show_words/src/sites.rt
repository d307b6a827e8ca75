//! Steps that ask for nothing, and steps that fail, by their instructions.

use crate::program::Program;
use show_rows::Row;
use tc_code::{Expr, Instr};

/// The instruction of a step that asks for nothing or fails, with its words.
#[derive(Clone, Copy)]
pub(crate) struct Site<'a> {
    /// Its words, with the name of each part that differs in braces.
    pub(crate) words: &'static str,
    /// The int that it sets, the mutex or thread variable that it tests, or an operator.
    pub(crate) name: &'a str,
    /// The length of an array, or the number of a line.
    pub(crate) number: u32,
    /// The expression whose value it uses.
    pub(crate) used: Option<&'a Expr>,
    /// Whether its words are worth reading where the steps of a statement are one row: an int's new
    /// value, a condition's outcome, or an assertion.
    pub(crate) is_brief: bool,
}

impl<'a> Site<'a> {
    /// The instruction of a row's step, and whether the step fails there.
    pub(crate) fn of(program: Program<'a>, row: &Row, fails: bool) -> Site<'a> {
        let Some(instr) = program.instr(row) else {
            return Site::plain("");
        };
        match instr {
            Instr::Set { slot, value } => Site::of_set(program, row, *slot, value),
            Instr::Branch { condition, .. } => Site::of_branch(program, row, condition),
            Instr::Goto { target } => Site::of_goto(program, row, *target),
            _ => Site::of_test(program, row, instr, fails),
        }
    }

    /// A slot that takes a value: an int of the text, or a side of `&&` or `||`.
    fn of_set(program: Program<'a>, row: &Row, slot: u32, value: &'a Expr) -> Site<'a> {
        if let Some(name) = program.names.int(row.function, slot) {
            return Site {
                name,
                is_brief: true,
                ..Site::using("{name} = {value}", value)
            };
        }
        if let Some(choice) = program.choice(row.function, row.instruction) {
            return Site {
                name: choice.sign(),
                ..Site::using("left of {name}: {names}: {values}, {truth}", choice.left)
            };
        }
        let Some(right) = program.right_side(row.function, row.instruction) else {
            return Site::plain("");
        };
        Site {
            name: match program.choice_of(row, slot) {
                Some(choice) => choice.sign(),
                None => "?",
            },
            ..Site::using("right of {name}: {names}: {values}, {truth}", right)
        }
    }

    /// A branch: on the condition of a statement, or on the left side of `&&` or `||`.
    fn of_branch(program: Program<'a>, row: &Row, condition: &'a Expr) -> Site<'a> {
        match program.branched(row.function, row.instruction) {
            Some(choice) => Site {
                name: choice.sign(),
                ..Site::using("left of {name} is {truth}", choice.left)
            },
            None => Site {
                is_brief: true,
                ..Site::using("{names}: {values}, {truth}", condition)
            },
        }
    }

    /// A jump.
    fn of_goto(program: Program<'a>, row: &Row, target: u32) -> Site<'a> {
        Site {
            number: program.line(row.function, target as usize),
            ..Site::plain("goes on at line {number}")
        }
    }

    /// A test, and whether it fails.
    fn of_test(program: Program<'a>, row: &Row, test: &'a Instr, fails: bool) -> Site<'a> {
        if fails {
            Site::failed(program, row, test)
        } else {
            Site::passed(program, row, test)
        }
    }

    /// A test that passes.
    fn passed(program: Program<'a>, row: &Row, test: &'a Instr) -> Site<'a> {
        match test {
            Instr::Assert(e) => Site {
                is_brief: true,
                ..Site::using("assertion holds: {values}", e)
            },
            Instr::Inside { length, index } => Site {
                number: *length,
                ..Site::using("index {value} is inside, length {number}", index)
            },
            Instr::Holds { mutex } => Site {
                name: program.names.mutex(*mutex),
                ..Site::plain("holds {name}")
            },
            Instr::Ready { handle } => Site {
                name: program.names.handle(row.function, *handle),
                ..Site::plain("{name} can be joined")
            },
            Instr::Nonzero(e) => Site::using("divisor is {value}", e),
            Instr::InRange(e) => Site::using("distance is {value}", e),
            _ => Site::plain(""),
        }
    }

    /// A test that fails.
    fn failed(program: Program<'a>, row: &Row, test: &'a Instr) -> Site<'a> {
        let words = match test {
            Instr::Assert(_) => "assertion fails: {values}",
            Instr::Inside { .. } => "fails: index {value} is outside, length {number}",
            Instr::Holds { .. } => "fails: doesn't hold {name}",
            Instr::Ready { .. } => "fails: {name} can't be joined",
            Instr::Nonzero(_) => "fails: divisor is 0",
            Instr::InRange(_) => "fails: distance {value} isn't 0 to 31",
            _ => "fails",
        };
        Site {
            words,
            ..Site::passed(program, row, test)
        }
    }

    /// An instruction whose words are all the same.
    fn plain(words: &'static str) -> Site<'a> {
        Site {
            words,
            name: "?",
            number: 0,
            used: None,
            is_brief: false,
        }
    }

    /// An instruction that uses the value of an expression.
    fn using(words: &'static str, used: &'a Expr) -> Site<'a> {
        Site {
            used: Some(used),
            ..Site::plain(words)
        }
    }
}
