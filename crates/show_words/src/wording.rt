//! The words of a move: those of its effect or its instruction, with the parts in braces put in.

use crate::effects::Effect;
use crate::moves::Shown;
use crate::program::Program;
use crate::sites::Site;
use crate::terms::{Form, push_expression, value_over};
use show_deeds::{Deed, Step, Stored};
use show_rows::Row;
use std::alloc::{AllocError, Global};
use std::collections::BTreeMap;
use std::fmt::Display;
use tc_base::{Request, ThreadName};
use tc_code::Instr;

/// A move, with what its words tell.
#[derive(Clone, Copy)]
pub(crate) struct Wording<'a> {
    pub(crate) program: Program<'a>,
    /// The rows before that of the move.
    pub(crate) before: &'a [Row],
    pub(crate) row: &'a Row,
    pub(crate) effect: Effect,
    pub(crate) site: Site<'a>,
    /// Whether it took its value from its thread's own buffer.
    pub(crate) is_own: bool,
    /// The threads that have begun a wait and haven't ended it, each with its condition.
    pub(crate) waits: &'a BTreeMap<ThreadName, u32>,
}

impl<'a> Wording<'a> {
    /// The move in words.
    pub(crate) fn shown(&self, alloc: Global) -> Result<Shown, AllocError> {
        let stated = self.stated_at();
        let mut shown = Shown {
            thread: self
                .program
                .title(alloc, self.row.deed.thread(), self.row.function)?,
            line: self.program.line(stated.function, stated.instruction),
            effect: self.effect,
            words: String::new(alloc),
            brief: None,
        };
        self.push(&mut shown.words)?;
        Ok(shown)
    }

    /// The row whose statement the move belongs to: for a drain, the row that issued the store.
    fn stated_at(&self) -> &'a Row {
        match &self.row.deed {
            Deed::Drained(stored) => issue_of(self.before, stored).unwrap_or(self.row),
            Deed::Did(_) => self.row,
        }
    }

    /// Adds the words.
    fn push(&self, out: &mut String) -> Result<(), AllocError> {
        let words = if self.effect.words.is_empty() {
            self.site.words
        } else {
            self.effect.words
        };
        for piece in words.split('}') {
            match piece.split_once('{') {
                Some((text, part)) => {
                    out.push_str(text)?;
                    self.push_part(out, part)?;
                }
                None => out.push_str(piece)?,
            }
        }
        Ok(())
    }

    /// Adds the part of a name.
    fn push_part(&self, out: &mut String, part: &str) -> Result<(), AllocError> {
        let Deed::Did(step) = &self.row.deed else {
            return self.push_fact(out, part);
        };
        match part {
            "thread" => push_one(out, &step.thread),
            "waker" => self.push_waker(out, step),
            "woken" => self.push_woken(out, step),
            "created" => self.push_created(out, step),
            "names" => self.push_used(out, Form::Name),
            "values" => self.push_used(out, Form::Value),
            _ => self.push_fact(out, part),
        }
    }

    /// Adds the part of a name that is a number or a name.
    fn push_fact(&self, out: &mut String, part: &str) -> Result<(), AllocError> {
        match part {
            "took" => push_number(out, self.effect.took),
            "put" => push_number(out, self.effect.put),
            "child" => push_number(out, self.effect.child),
            "number" => push_number(out, Some(self.site.number)),
            "value" => push_number(out, Some(self.value())),
            _ => out.push_str(self.name(part)),
        }
    }

    /// The part of a name that is itself a name, or a word.
    fn name(&self, part: &str) -> &'a str {
        let names = self.program.names;
        match part {
            "cell" => names.cell(self.effect.cell.unwrap_or(u32::MAX)),
            "mutex" => names.mutex(self.effect.mutex.unwrap_or(u32::MAX)),
            "condition" => names.condition(self.effect.condition.unwrap_or(u32::MAX)),
            "own" if self.is_own => ", from its own buffer",
            "truth" if self.value() != 0 => "true",
            "truth" => "false",
            "name" => self.site.name,
            _ => "",
        }
    }

    /// The value that the instruction uses.
    fn value(&self) -> i32 {
        match self.site.used {
            Some(e) => value_over(self.row.slots.as_slice(), e),
            None => 0,
        }
    }

    /// Adds the expression whose value the instruction uses.
    fn push_used(&self, out: &mut String, form: Form) -> Result<(), AllocError> {
        match self.site.used {
            Some(e) => push_expression(out, self.program, self.row, e, form),
            None => Ok(()),
        }
    }

    /// Adds the thread that woke the thread of a step, if it is known.
    fn push_waker(&self, out: &mut String, step: &Step) -> Result<(), AllocError> {
        let Some(condition) = self.effect.condition else {
            return Ok(());
        };
        match waker_of(self.before, &step.thread, condition) {
            Some(waker) => write!(out, " by {waker}"),
            None => Ok(()),
        }
    }

    /// Adds the threads that a step wakes.
    fn push_woken(&self, out: &mut String, step: &Step) -> Result<(), AllocError> {
        if let Some(other) = &step.other {
            return write!(out, "wakes {other}");
        }
        let mut has_woken = false;
        for (name, condition) in self.waits {
            if self.effect.condition == Some(*condition)
                && waker_of(self.before, name, *condition).is_none()
            {
                out.push_str(if has_woken { ", " } else { "wakes " })?;
                write!(out, "{name}")?;
                has_woken = true;
            }
        }
        out.push_str(if has_woken { "" } else { "nobody waits" })
    }

    /// Adds the thread that a step creates, with its arguments.
    fn push_created(&self, out: &mut String, step: &Step) -> Result<(), AllocError> {
        let (
            Some(child),
            Some(
                Instr::Create {
                    function,
                    arguments,
                    ..
                },
            ),
        ) = (&step.other, self.program.instr(self.row))
        else {
            return Ok(());
        };
        let function = *function as usize;
        let called = self.program.called(function);
        write!(out, "{child} {called}(")?;
        let mut number = 0u32;
        for argument in arguments.as_slice() {
            let comma = if number == 0 { "" } else { ", " };
            let parameter = self.program.names.int(function, number).unwrap_or("?");
            let value = value_over(self.row.slots.as_slice(), argument);
            write!(out, "{comma}{parameter} = {value}")?;
            number = number.saturating_add(1);
        }
        out.push(')')
    }
}

/// The row that issued a store.
fn issue_of<'r>(before: &'r [Row], stored: &Stored) -> Option<&'r Row> {
    for row in before.iter().rev() {
        if let Deed::Did(step) = &row.deed
            && step.number == stored.number
            && step.thread == stored.thread
        {
            return Some(row);
        }
    }
    None
}

/// The thread that woke a thread after it began to wait on a condition, if that thread was woken.
pub(crate) fn waker_of<'r>(
    rows: &'r [Row],
    name: &ThreadName,
    condition: u32,
) -> Option<&'r ThreadName> {
    let mut waker = None;
    for row in rows.iter().rev() {
        if let Deed::Did(step) = &row.deed {
            match step.asks {
                Request::BeginWait(_, _) if step.thread == *name => return waker,
                Request::WakeOne(_) if is_for(step, name) => waker = Some(&step.thread),
                Request::WakeAll(woken) if woken == condition => waker = Some(&step.thread),
                _ => {}
            }
        }
    }
    waker
}

/// Whether a step wakes or creates a thread.
fn is_for(step: &Step, name: &ThreadName) -> bool {
    match &step.other {
        Some(other) => other == name,
        None => false,
    }
}

/// Adds a value.
fn push_one<N: Display>(out: &mut String, value: &N) -> Result<(), AllocError> {
    write!(out, "{value}")
}

/// Adds a number, or says that there is none.
fn push_number<N: Display + Copy>(out: &mut String, number: Option<N>) -> Result<(), AllocError> {
    match number {
        Some(number) => write!(out, "{number}"),
        None => out.push_str("nothing"),
    }
}
