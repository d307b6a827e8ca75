//! What the names of a program stand for in its code.
ghost use Rattle.std.specs.Prelude.{◌≡◌};
ghost use Rattle.tc_lower.specs.Things.{named, thing_in};
ghost use Rattle.tc_lower.specs.helpers.Seen.{plain_scope};

use tc_tree::Name;

/// What a name denotes.
#[derive(Clone, Copy, Debug, PartialEq, Eq)]
pub(crate) enum Thing {
    /// A global int: its cell.
    Cell(u32),
    /// An array: its first cell, and how many cells it has.
    Array(u32, u32),
    /// A mutex.
    Mutex(u32),
    /// A condition.
    Condition(u32),
    /// A thread: its function, and how many parameters the function has.
    Function(u32, usize),
    /// A parameter or an int of the body: its slot.
    Slot(u32),
    /// A `tid` of the body: its thread variable.
    Handle(u32),
}

/// A name and what it denotes.
#[derive(Clone, Copy, Debug)]
pub(crate) struct Named {
    pub(crate) name: Name,
    pub(crate) thing: Thing,
}

impl Named {
    pub(crate) fn new(name: &Name, thing: Thing) -> Named
        ensures { result ≡ named name.now thing }
    {
        Named { name: *name, thing }
    }
}

/// What names stand for in a body.
#[derive(Clone, Copy, Debug)]
pub(crate) struct Scope<'t, 'o, 's> {
    /// The text that the names are in.
    pub(crate) source: &'t [u8],
    /// The body's own things.
    pub(crate) own: &'o [Named],
    /// The program's things.
    pub(crate) all: &'s [Named],
}

fn find(source: &[u8], names: &[Named], name: &Name) -> Option<Thing>
    ensures { result ≡ thing_in source.now names.now name.now }
{
    let text = name.text(source);
    let mut rest = names;
    while let [named, later @ ..] = rest {
        if named.name.text(source) == text {
            return Some(named.thing);
        }
        rest = later;
    }
    None
}

/// What a name denotes, if it has a declaration.
pub(crate) fn thing_of(scope: Scope, name: &Name) -> Option<Thing>
    ensures { result ≡ plain_scope scope.entry name.now }
{
    match find(scope.source, scope.own, name) {
        Some(thing) => Some(thing),
        None => find(scope.source, scope.all, name),
    }
}
