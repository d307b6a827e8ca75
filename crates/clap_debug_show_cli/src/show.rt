//! Showing a schedule or a log of a program, as text or as a page.
ghost use Rattle.std.specs.Prelude.{◌≡◌, ◌≤◌, length, IfErr, IfOk};
ghost use Rattle.tc_limits.specs.declared.limits.TheConstants.{PROGRAM_BYTES};
ghost use Rattle.clap_debug_show_cli.specs.Causes.{IsShowing};
ghost use Rattle.clap_debug_show_cli.specs.helpers.Refused.{IsWhyNotShown};
ghost use Rattle.clap_debug_show_cli.specs.Calls.{plain_showing};
ghost use Rattle.clap_debug_show_cli.specs.Commands.{file_inputs};
ghost use Rattle.clap_debug_show_cli.specs.helpers.Meanings.{show_inputs, show_meaning};

use crate::asked::Show;
use crate::limits::{file_limit, program_limit};
use crate::refusal::{Fault, Refusal};
use crate::shown::{Shown, read_shown};
use crate::words::Showing;
use command_frame::{Command, Keep, Status, Whole, Work};
use std::alloc::{AllocError, Global};

/// The outcome for a program and a file.
#[derive(Drop)]
pub(crate) enum Showed<'a> {
    /// One of the two was refused.
    Refused(Refusal),
    /// To be shown as text.
    Text(Shown<'a>),
    /// To be kept under this name as this page.
    Page(Shown<'a>, &'a str, String),
}

impl<'a> Show<'a> {
    pub(crate) fn new(showing: Showing<'a>) -> Show<'a>
        ensures inputs { show_inputs result ≡ file_inputs (plain_showing showing.entry) }
        ensures showing { plain_showing result.showing ≡ plain_showing showing.entry }
    {
        let program = Whole {
            limit: program_limit(),
            name: showing.program,
        };
        let file = Whole {
            limit: file_limit(),
            name: showing.file,
        };
        Show {
            inputs: (program, file),
            showing,
        }
    }

    /// What the two files show, or why they show nothing.
    fn showed(&self, alloc: Global, program: &[u8], file: &[u8]) -> Result<Showed<'a>, Fault>
        requires { length program.now ≤ PROGRAM_BYTES }
        ensures showed { IfOk result (IsShowing (plain_showing self.now.showing) program.now file.now) }
        ensures fault { IfErr result (IsWhyNotShown program.now file.now) }
    {
        let shown = read_shown(alloc, self.showing, program, file)?;
        let Some(name) = self.showing.page else {
            return Ok(Showed::Text(shown));
        };
        let page = shown.page(alloc)?;
        Ok(Showed::Page(shown, name, page))
    }
}

impl<'a> Command for Show<'a> {
    type Outcome = Showed<'a>;

    ghost meaning = { show_meaning };

    fn keeps<'n, 'b>(
        &'n self,
        alloc: Global,
        outcome: &'b Showed<'a>,
    ) -> Result<Vec<Keep<'n, 'b>>, AllocError> {
        let mut keeps = Vec::new(alloc);
        if let Showed::Page(_, name, page) = outcome {
            keeps.push(Keep::new(name, page.as_bytes()))?;
        }
        Ok(keeps)
    }

    fn text(&self, alloc: Global, outcome: &Showed<'a>) -> Result<Vec<u8>, AllocError> {
        match outcome {
            Showed::Refused(refusal) => Ok(refusal.line(alloc)?.into_bytes()),
            Showed::Text(shown) => Ok(shown.text(alloc)?.into_bytes()),
            Showed::Page(_, _, _) => Ok(String::from_str(alloc, "page kept\n")?.into_bytes()),
        }
    }

    fn status(&self, outcome: &Showed<'a>) -> Status {
        match outcome {
            Showed::Refused(refusal) => refusal.status(),
            Showed::Text(_) | Showed::Page(_, _, _) => Status::Done,
        }
    }
}

impl<'a> Work for Show<'a> {
    type Inputs = (Whole<'a>, Whole<'a>);

    fn inputs(&self) -> &(Whole<'a>, Whole<'a>) {
        &self.inputs
    }

    fn work(&self, alloc: Global, bytes: &(Vec<u8>, Vec<u8>)) -> Result<Showed<'a>, AllocError> {
        match self.showed(alloc, &bytes.0, &bytes.1) {
            Ok(showed) => Ok(showed),
            Err(Fault::Refused(refusal)) => Ok(Showed::Refused(refusal)),
            Err(Fault::Memory) => Err(AllocError),
        }
    }
}
