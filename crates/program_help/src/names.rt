//! Explains what is wrong with a name.

use crate::foreign::foreign_hint;
use crate::meanings::{meaning_words, wanted_at};
use crate::scopes::{Known, Scope, known_names, scope_at};
use crate::source::{Source, word_of};
use std::alloc::{AllocError, Global};
use strsim::levenshtein;
use tc_lexer::Place;
use tc_names::Meaning;
use tc_tree::{Name, Program};

/// A name that breaks a rule: the number of its token, and the program's names.
#[derive(Drop)]
pub(crate) struct Fault<'a> {
    source: Source<'a>,
    number: usize,
    place: Place,
    scope: Scope,
    known: Vec<Known>,
}

impl<'a> Fault<'a> {
    /// The name at a place of a program.
    pub(crate) fn at(
        alloc: Global,
        source: Source<'a>,
        program: &Program,
        place: Place,
    ) -> Result<Fault<'a>, AllocError> {
        Ok(Fault {
            source,
            number: source.number_at(place),
            place,
            scope: scope_at(program, place),
            known: known_names(alloc, program)?,
        })
    }

    /// The name.
    fn name(&self) -> &'a str {
        self.source.word(self.number)
    }

    /// Whether a declaration is of this name.
    fn is_named(&self, known: &Known) -> bool {
        known.name.text(self.source.text) == self.name().as_bytes()
    }

    /// The meaning of the name in one scope.
    fn known_in(&self, scope: Scope) -> Option<Known> {
        self.known
            .iter()
            .find(|known| self.is_named(known) && known.scope == scope)
            .copied()
    }

    /// Explains a name without a declaration.
    pub(crate) fn push_unknown(&self, out: &mut String) -> Result<(), AllocError> {
        let name = self.name();
        writeln!(out, "found: the name `{name}`, which isn't declared")?;
        if let Some(hint) = foreign_hint(name) {
            writeln!(out, "hint: {hint}")
        } else if let Some(other) = self.known.iter().find(|known| self.is_named(known)) {
            self.push_elsewhere(out, other)
        } else {
            self.push_nearest(out)
        }
    }

    /// Adds where the name is known.
    fn push_elsewhere(&self, out: &mut String, other: &Known) -> Result<(), AllocError> {
        let name = self.name();
        let line = other.name.place.line;
        let owner = self.owner(*out.allocator(), other.scope)?;
        writeln!(
            out,
            "hint: the `{name}` of line {line} is known only in {owner}"
        )
    }

    /// Adds the known name that is spelled most like this one, if one is close.
    fn push_nearest(&self, out: &mut String) -> Result<(), AllocError> {
        match self.nearest(*out.allocator(), self.name())? {
            Some(near) => writeln!(out, "hint: did you mean `{near}`?"),
            None => Ok(()),
        }
    }

    /// A scope in words.
    fn owner(&self, alloc: Global, scope: Scope) -> Result<String, AllocError> {
        match scope {
            Scope::Whole => String::from_str(alloc, "the program"),
            Scope::Main => String::from_str(alloc, "main"),
            Scope::Thread(name) => {
                let thread = word_of(self.source.text, &name);
                format!(in alloc; "thread {thread}")
            }
        }
    }

    /// The known name that is spelled most like this one, if one is close.
    fn nearest(&self, alloc: Global, name: &str) -> Result<Option<&'a str>, AllocError> {
        let mut best = None;
        let mut least = (name.len() / 4).saturating_add(1);
        for known in self.known.iter() {
            if known.scope != Scope::Whole && known.scope != self.scope {
                continue;
            }
            let other = word_of(self.source.text, &known.name);
            let distance = levenshtein(alloc, name, other)?;
            if distance <= least {
                least = distance.saturating_sub(1);
                best = Some(other);
            }
        }
        Ok(best)
    }

    /// Explains a name that is declared twice.
    pub(crate) fn push_twice(&self, out: &mut String) -> Result<(), AllocError> {
        let name = self.name();
        match self.known_in(self.scope_of_second()) {
            Some(first) => {
                let line = first.name.place.line;
                let meaning = meaning_words(*out.allocator(), first.meaning)?;
                writeln!(
                    out,
                    "found: the name `{name}`, already declared in line {line}, as {meaning}"
                )
            }
            None => writeln!(out, "found: the name `{name}`, already declared"),
        }
    }

    /// The scope of the declaration at the name's place.
    fn scope_of_second(&self) -> Scope {
        let mut scope = Scope::Whole;
        for known in self.known.iter() {
            if known.name.place == self.place {
                scope = known.scope;
            }
        }
        scope
    }

    /// Explains a name of another kind than its use asks for, or the length 0.
    pub(crate) fn push_kind(&self, out: &mut String) -> Result<(), AllocError> {
        let Some(known) = self.known_in(self.scope).or(self.known_in(Scope::Whole)) else {
            return out.push_str("found: the length 0\nexpected: a number from 1 on\n");
        };
        let wanted = wanted_at(self.source, self.number);
        let is = self.declared(*out.allocator(), known)?;
        let words = wanted.words();
        writeln!(out, "found: {is}\nexpected: {words}")?;
        match wanted.hint(known.meaning) {
            Some(hint) => writeln!(out, "hint: {hint}"),
            None => Ok(()),
        }
    }

    /// Explains a create whose number of arguments isn't that of the thread's parameters.
    pub(crate) fn push_arguments(&self, out: &mut String) -> Result<(), AllocError> {
        let Some(known) = self.known_in(Scope::Whole) else {
            return Ok(());
        };
        let given = self.given();
        let is = self.declared(*out.allocator(), known)?;
        let plural = if given == 1 { "" } else { "s" };
        writeln!(out, "found: {given} argument{plural} for {is}")
    }

    /// A name, what it means, and where it is declared.
    fn declared(&self, alloc: Global, known: Known) -> Result<String, AllocError> {
        let name = self.name();
        let meaning = meaning_words(alloc, known.meaning)?;
        let line = known.name.place.line;
        format!(in alloc; "`{name}`, {meaning}, declared in line {line}")
    }

    /// The number of arguments in the parentheses after the name.
    fn given(&self) -> usize {
        if self.source.after(self.number, 2) == ")" {
            return 0;
        }
        let mut open: usize = 0;
        let mut commas: usize = 0;
        for i in self.number.saturating_add(1)..self.source.tokens.len() {
            let word = self.source.word(i);
            if word == "(" || word == "[" {
                open = open.saturating_add(1);
            } else if word == ")" || word == "]" {
                open = open.saturating_sub(1);
            } else if word == "," && open == 1 {
                commas = commas.saturating_add(1);
            }
            if open == 0 {
                break;
            }
        }
        commas.saturating_add(1)
    }
}
