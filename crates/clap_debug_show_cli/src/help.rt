//! Help with the text of a program: why it isn't a program, or what the program has.
ghost use Rattle.std.specs.Prelude.{◌≡◌, ◌≤◌, ◌++◌, ℕ, List, length, IfErr, IfOk};
ghost use Rattle.tc_limits.specs.declared.limits.TheConstants.{PROGRAM_BYTES};
ghost use Rattle.tc_compile.specs.Programs.{IsCodeOf, IsRefusal, IsWhyNoCode};
ghost use Rattle.clap_debug_show_cli.specs.Answers.{program_line};
ghost use Rattle.clap_debug_show_cli.specs.Causes.{IsHelpTo};
ghost use Rattle.clap_debug_show_cli.specs.Limits.{program_limit};
ghost use Rattle.command_frame.specs.Inputs as inputs;
ghost use Rattle.command_frame.specs.helpers.Failures.{plain_whole};
ghost use Rattle.clap_debug_show_cli.specs.helpers.Meanings.{help_meaning};

use crate::asked::Help;
use crate::limits::program_limit;
use crate::refusal::program_line;
use command_frame::{Command, Keep, Status, Whole, Work};
use next_tokens::{Stuck, stuck_of};
use program_help::{describe, explain};
use std::alloc::{AllocError, Global};
use tc_code::Code;
use tc_compile::CompileFault;
use tc_lower::lower;
use tc_parser::{TextFault, read};
use tc_tree::Tree;

/// Why a text isn't a program.
#[derive(Drop)]
pub(crate) struct Explained {
    pub(crate) fault: TextFault,
    /// The tokens possible at the fault, if it is a syntax fault.
    pub(crate) stuck: Option<Stuck>,
    /// The words about both.
    pub(crate) words: String,
}

/// The contents of a program.
#[derive(Drop)]
pub(crate) struct Described {
    pub(crate) code: Code,
    /// The words about it.
    pub(crate) words: String,
}

/// Help with the text of a program.
#[derive(Drop)]
pub(crate) enum Helped {
    /// Why the text isn't a program.
    Explained(Explained),
    /// What the program has.
    Described(Described),
}

impl<'a> Help<'a> {
    pub(crate) fn new(name: &'a str) -> Help<'a>
        ensures { plain_whole result.program ≡ inputs.Whole program_limit name.entry.now }
    {
        Help {
            program: Whole {
                limit: program_limit(),
                name,
            },
        }
    }
}

impl<'a> Command for Help<'a> {
    type Outcome = Helped;

    ghost meaning = { help_meaning };

    fn keeps<'n, 'b>(
        &'n self,
        alloc: Global,
        _outcome: &'b Helped,
    ) -> Result<Vec<Keep<'n, 'b>>, AllocError> {
        Ok(Vec::new(alloc))
    }

    fn text(&self, alloc: Global, outcome: &Helped) -> Result<Vec<u8>, AllocError> {
        match outcome {
            Helped::Explained(why) => explained_text(alloc, why),
            Helped::Described(has) => has.words.as_bytes().to_vec(alloc),
        }
    }

    fn status(&self, outcome: &Helped) -> Status {
        match outcome {
            Helped::Explained(_) => Status::ProgramRefused,
            Helped::Described(_) => Status::Done,
        }
    }
}

impl<'a> Work for Help<'a> {
    type Inputs = Whole<'a>;

    fn inputs(&self) -> &Whole<'a> {
        &self.program
    }

    fn work(&self, alloc: Global, text: &Vec<u8>) -> Result<Helped, AllocError> {
        match describe_text(alloc, text) {
            Ok(described) => Ok(Helped::Described(described)),
            Err(CompileFault::Refused(fault)) => explain_fault(alloc, text, fault),
            Err(CompileFault::Memory) => Err(AllocError),
        }
    }
}

/// Why a text is no program: the line that says it, and what is said of it.
fn explained_text(alloc: Global, why: &Explained) -> Result<Vec<u8>, AllocError>
    ensures { IfOk result (λ text. (more : List ℕ) × (text.items ≡ program_line why.now.fault ++ more)) }
{
    let mut text = program_line(alloc, &why.fault)?.into_bytes();
    text.extend_from_slice(why.words.as_bytes())?;
    Ok(text)
}

/// The contents of the program of a text.
fn describe_text(alloc: Global, text: &[u8]) -> Result<Described, CompileFault>
    requires { length text.now ≤ PROGRAM_BYTES }
    ensures found { IfOk result (λ has. IsCodeOf text.now has.code) }
    ensures refused { IfErr result (IsWhyNoCode text.now) }
{
    let (tree, code) = read_code(alloc, text)?;
    let words = describe(alloc, text, &tree.program, &code)?;
    Ok(Described { code, words })
}

/// Why a text with this fault isn't a program.
fn explain_fault(alloc: Global, text: &[u8], fault: TextFault) -> Result<Helped, AllocError>
    requires size { length text.now ≤ PROGRAM_BYTES }
    requires refused { IsRefusal text.now fault }
    ensures { IfOk result (IsHelpTo text.now) }
{
    let stuck = stuck_of(alloc, text, &fault)?;
    let words = explain(alloc, text, &fault, stuck.as_ref())?;
    Ok(Helped::Explained(Explained {
        fault,
        stuck,
        words,
    }))
}

/// The program of a text, and its code.
pub(crate) fn read_code(alloc: Global, text: &[u8]) -> Result<(Tree<'_>, Code), CompileFault>
    requires { length text.now ≤ PROGRAM_BYTES }
    ensures found { IfOk result (λ both. IsCodeOf text.now both.1) }
    ensures refused { IfErr result (IsWhyNoCode text.now) }
{
    let tree = read(alloc, text)?;
    let code = lower(alloc, &tree)?;
    Ok((tree, code))
}
