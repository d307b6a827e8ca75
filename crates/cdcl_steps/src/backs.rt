//! Backtracking.
ghost use Rattle.std.specs.Prelude.{◌≡◌, ◌<◌, List, length};
ghost use Rattle.cdcl_clauses.specs.Clauses.{Clause};
ghost use Rattle.cdcl_clauses.specs.Invariants.{AreConsistent, AreRooted};
ghost use Rattle.cdcl_clauses.specs.declared.watches.Watch.{Watch};
ghost use Rattle.cdcl_trail.specs.Trail.{IsTrail, cut_to};

use cdcl_activity::Activity;
use cdcl_trail::Trail;

/// Undoes the levels from `level` on; their variables may be decided again.
pub fn go_back(trail: &mut Trail, activity: &mut Activity, level: usize)
    requires lawful { IsTrail trail.old }
    requires level { level < length trail.old.starts }
    requires activity { activity.old ≡ trail.old.variables }
    ensures trail { trail.new ≡ cut_to trail.old level }
    ensures sound { (cs : List Clause) (ws : List (List Watch)) → AreConsistent trail.old cs ws → AreConsistent trail.new cs ws }
    ensures rooted { (cs : List Clause) → AreRooted trail.old cs → AreRooted trail.new cs }
    ensures activity { activity.new ≡ activity.old }
{
    for place in trail.start(level)..trail.len() {
        activity.restore(trail.literal(place));
    }
    trail.cut(level);
}
