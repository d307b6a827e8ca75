//! Dropping a clause.
ghost use Rattle.std.specs.Prelude.{◌≡◌, ◌<◌, List, length};
ghost use Rattle.cdcl_clauses.specs.Clauses.{dropped};
ghost use Rattle.cdcl_trail.specs.Trail.{Trail, IsNoReason};
ghost use Rattle.cdcl_clauses.specs.Invariants.{AreConsistent, AreRooted};
ghost use Rattle.cdcl_clauses.specs.declared.watches.Watch.{Watch};

use cdcl_clauses::Clauses;
use cdcl_literals::ClauseId;

/// Drops a clause, which mustn't be a reason on the trail. Propagation removes its watches when it
/// meets them.
pub fn forget(clauses: &mut Clauses, clause: ClauseId)
    requires { clause < length clauses.old }
    ensures after { clauses.new ≡ dropped clauses.old clause }
    ensures sound { (t : Trail) (ws : List (List Watch)) → IsNoReason t clause → AreConsistent t clauses.old ws → AreConsistent t clauses.new ws }
    ensures rooted { (t : Trail) → AreRooted t clauses.old → AreRooted t clauses.new }
{
    clauses.remove(clause);
}
