//! What names mean.
ghost use Rattle.std.specs.Prelude.{◌≡◌, MatchResult, Some, None};
ghost use Rattle.tc_names.specs.declared.fault.NameFault.TheVariants.{Unknown};
ghost use Rattle.tc_names.specs.Names.{meaning_in, twice_fault};
ghost use Rattle.tc_names.specs.helpers.Answers.{Tells, plain_scope};

use crate::fault::NameFault;
use tc_tree::Name;

/// What a name means.
#[derive(Clone, Copy, Debug, PartialEq, Eq)]
pub enum Meaning {
    /// An int that all threads share.
    Global,
    /// An array.
    Array,
    /// A mutex.
    Mutex,
    /// A condition.
    Condition,
    /// A thread, with its number of parameters.
    Thread(usize),
    /// A parameter.
    Parameter,
    /// An int of the body.
    Local,
    /// A `tid` of the body.
    Handle,
}

/// A name and what it means.
#[derive(Clone, Copy, Debug)]
pub struct Declaration {
    /// The name, where it is declared.
    pub name: Name,
    /// The meaning of the declared name.
    pub meaning: Meaning,
}

/// What names mean in a body.
#[derive(Clone, Copy, Debug)]
pub(crate) struct Scope<'t, 'o, 's> {
    /// The text that the names are in.
    pub(crate) source: &'t [u8],
    /// The body's own declarations.
    pub(crate) own: &'o [Declaration],
    /// The program's declarations.
    pub(crate) all: &'s [Declaration],
}

/// The meaning of a name by its first declaration.
fn find(source: &[u8], declarations: &[Declaration], name: &Name) -> Option<Meaning>
    ensures { result ≡ meaning_in source.now declarations.now name.now }
{
    let text = name.text(source);
    let mut rest = declarations;
    while let [declaration, later @ ..] = rest {
        if declaration.name.text(source) == text {
            return Some(declaration.meaning);
        }
        rest = later;
    }
    None
}

/// What a name means, if it has a declaration.
pub(crate) fn meaning_of(scope: Scope, name: &Name) -> Result<Meaning, NameFault>
    ensures { MatchResult result
        (λ m. plain_scope scope.entry name.now ≡ Some m)
        (λ fault. (plain_scope scope.entry name.now ≡ None) × (fault ≡ Unknown name.now.place)) }
{
    if let Some(meaning) = find(scope.source, scope.own, name) {
        return Ok(meaning);
    }
    match find(scope.source, scope.all, name) {
        Some(meaning) => Ok(meaning),
        None => Err(NameFault::Unknown(name.place)),
    }
}

/// Rejects a declaration of a name that was declared earlier.
pub(crate) fn check_first(
    source: &[u8],
    earlier: &[Declaration],
    name: &Name,
) -> Result<(), NameFault>
    ensures { Tells result (twice_fault source.now earlier.now name.now) }
{
    match find(source, earlier, name) {
        Some(_) => Err(NameFault::Twice(name.place)),
        None => Ok(()),
    }
}
