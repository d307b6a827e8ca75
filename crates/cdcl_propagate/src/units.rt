//! Unit propagation to the end.
ghost use Rattle.std.specs.Prelude.{◌≡◌, ℕ, ◌<◌, [], ◌∷◌, ◌++◌, IfOk, IfSome, IsNone, OnErr, OnOk, Contains, true, length, slice_index, slice_set};
ghost use Rattle.cdcl_literals.specs.Literals.{opposite_of};
ghost use Rattle.cdcl_trail.specs.Trail.{IsOpen};
ghost use Rattle.cdcl_clauses.specs.Clauses.{at, watches, listed};
ghost use Rattle.cdcl_clauses.specs.Invariants.{AreConsistent, IsConflict, AreLinked};
ghost use Rattle.cdcl_propagate.specs.helpers.Looks.{IsVisited, Watching, AllFalseBut, IsFound};
ghost use Rattle.cdcl_propagate.specs.Propagation.{Propagates};

use crate::inspect::{Look, look_at};
use cdcl_clauses::{Clauses, Watch, Watches};
use cdcl_literals::{ClauseId, Literal};
use cdcl_trail::Trail;
use std::alloc::AllocError;

/// Propagates until nothing is pending, or returns a clause whose literals are all false.
pub fn propagate(
    trail: &mut Trail,
    clauses: &mut Clauses,
    watches: &mut Watches,
) -> Result<Option<ClauseId>, AllocError>
    requires { AreConsistent trail.old clauses.old watches.old }
    ensures keeps { Propagates trail.old clauses.old trail.new clauses.new watches.new }
    ensures none { IfOk result (λ found. IsNone found → trail.new.propagated ≡ length trail.new.literals) }
    ensures conflict { IfOk result (λ found. IfSome found (IsConflict trail.new clauses.new)) }
{
    while let Some(literal) = trail.pending() {
        if let Some(conflict) = visit(trail, clauses, watches, literal.opposite())? {
            return Ok(Some(conflict));
        }
        trail.advance();
    }
    Ok(None)
}

/// Looks at each clause that watches the literal made false by the first pending one.
fn visit(
    trail: &mut Trail,
    clauses: &mut Clauses,
    watches: &mut Watches,
    fallen: Literal,
) -> Result<Option<ClauseId>, AllocError>
    requires sound { AreConsistent trail.old clauses.old watches.old }
    requires pending { trail.old.propagated < length trail.old.literals }
    requires fallen { fallen ≡ opposite_of (slice_index trail.old.literals trail.old.propagated) }
    ensures keeps { Propagates trail.old clauses.old trail.new clauses.new watches.new }
    ensures same { trail.new.propagated ≡ trail.old.propagated }
    ensures none { IfOk result (λ found. IsNone found → IsVisited trail.new clauses.new fallen) }
    ensures conflict { IfOk result (λ found. IfSome found (IsConflict trail.new clauses.new)) }
{
    let mut place = 0;
    while place < watches.count(fallen) {
        match look_at(trail, clauses, watches.get(fallen, place), fallen) {
            Look::Satisfied => place += 1,
            Look::Gone => watches.remove(fallen, place),
            Look::Moves {
                clause,
                other,
                next,
            } => {
                move_watch(clauses, watches, clause, other, next)?;
                watches.remove(fallen, place);
            }
            Look::Forces { clause, other } => {
                trail.imply(other, clause);
                place += 1;
            }
            Look::Conflict(clause) => return Ok(Some(clause)),
        }
    }
    Ok(None)
}

/// Makes a clause watch `other` and `next`, and adds it to the watch list of `next`.
fn move_watch(
    clauses: &mut Clauses,
    watches: &mut Watches,
    clause: ClauseId,
    other: Literal,
    next: Literal,
) -> Result<(), AllocError>
    requires clause { clause < length clauses.old }
    requires next { next < length watches.old }
    ensures ok_clauses { OnOk result (clauses.new ≡ slice_set clauses.old clause (record (at clauses.old clause) { first = other; second = next })) }
    ensures ok_watches { OnOk result (watches.new ≡ slice_set watches.old next (listed watches.old next ++ record { clause = clause; blocker = other } ∷ [])) }
    ensures err_clauses { OnErr result (clauses.new ≡ clauses.old) }
    ensures err_watches { OnErr result (watches.new ≡ watches.old) }
{
    watches.push(
        next,
        Watch {
            clause,
            blocker: other,
        },
    )?;
    clauses.watch(clause, other, next);
    Ok(())
}
