//! The meaning that a declaration gives a name, and the meaning that its use asks for.

use crate::source::Source;
use std::alloc::{AllocError, Global};
use tc_names::Meaning;

/// The meaning that a declaration gives a name.
pub(crate) fn meaning_words(alloc: Global, meaning: Meaning) -> Result<String, AllocError> {
    let words = match meaning {
        Meaning::Global => "a global int",
        Meaning::Array => "an array",
        Meaning::Mutex => "a mutex",
        Meaning::Condition => "a condition",
        Meaning::Parameter => "a parameter",
        Meaning::Local => "an int of the body",
        Meaning::Handle => "a tid of the body",
        Meaning::Thread(1) => "a thread with 1 parameter",
        Meaning::Thread(parameters) => {
            return format!(in alloc; "a thread with {parameters} parameters");
        }
    };
    String::from_str(alloc, words)
}

/// The meaning that the use of a name asks for.
#[derive(Clone, Copy, PartialEq, Eq)]
pub(crate) enum Wanted {
    /// A global int, a parameter or an int of the body.
    Int,
    /// A global int.
    Global,
    /// An int of the body.
    Local,
    Array,
    Mutex,
    Condition,
    Handle,
    Thread,
}

impl Wanted {
    pub(crate) fn words(self) -> &'static str {
        match self {
            Wanted::Int => "a global int, a parameter or an int of the body",
            Wanted::Global => "a global int",
            Wanted::Local => "an int that is declared in the body",
            Wanted::Array => "an array",
            Wanted::Mutex => "a mutex",
            Wanted::Condition => "a condition",
            Wanted::Handle => "a tid of the body",
            Wanted::Thread => "a thread",
        }
    }

    /// What to write in place of a name that means something else.
    pub(crate) fn hint(self, meaning: Meaning) -> Option<&'static str> {
        match (self, meaning) {
            (Wanted::Global, _) => Some(
                "`swap`, `cas` and `add` work on a global int or on an element, as in `swap(a[i], 1)`",
            ),
            (Wanted::Local, Meaning::Global) => {
                Some("let an int of the body take the old value, and store that")
            }
            (Wanted::Local, Meaning::Parameter) => {
                Some("a parameter can't take the old value: declare an int in the body")
            }
            (Wanted::Int, Meaning::Array) => Some("write `a[i]` for an element of an array"),
            (Wanted::Array, Meaning::Global) => Some(
                "declare an array with its length: `int a[4];`",
            ),
            (Wanted::Handle, _) => Some(
                "a tid names a created thread: declare `tid t;` in the body",
            ),
            (Wanted::Thread, _) => Some(
                "`create` starts a thread of the program: `thread f() { .. }`",
            ),
            _ => None,
        }
    }
}

/// The meaning that is asked of the name with this number of a token.
pub(crate) fn wanted_at(source: Source, number: usize) -> Wanted {
    if source.before(number, 1) == "create" {
        return Wanted::Thread;
    }
    if source.after(number, 1) == "[" {
        return Wanted::Array;
    }
    if source.before(number, 1) == "(" {
        if let Some(wanted) = wanted_in(source.before(number, 2)) {
            return wanted;
        }
        if source.before(number, 2) == "add" && source.before(number, 3) == "=" {
            return Wanted::Global;
        }
    }
    if source.before(number, 1) == "," && source.before(number, 4) == "wait" {
        return Wanted::Mutex;
    }
    if source.after(number, 1) == "=" {
        if source.after(number, 2) == "add" && source.after(number, 3) == "(" {
            return Wanted::Local;
        }
        return wanted_left(source.after(number, 2));
    }
    Wanted::Int
}

/// The meaning that a statement asks of the first name in its parentheses.
fn wanted_in(word: &str) -> Option<Wanted> {
    if word == "join" {
        Some(Wanted::Handle)
    } else if word == "lock" || word == "unlock" {
        Some(Wanted::Mutex)
    } else if word == "wait" || word == "signal" || word == "broadcast" {
        Some(Wanted::Condition)
    } else if word == "swap" || word == "cas" {
        Some(Wanted::Global)
    } else {
        None
    }
}

/// The meaning that is asked of the name on the left, by the word right of the `=`.
fn wanted_left(word: &str) -> Wanted {
    if word == "create" {
        Wanted::Handle
    } else if word == "swap" || word == "cas" {
        Wanted::Local
    } else {
        Wanted::Int
    }
}
