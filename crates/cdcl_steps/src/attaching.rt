//! Attaching one more clause.
ghost use Rattle.std.specs.Prelude.{◌≡◌, ℕ, ◌<◌, ◌^◌, List, [], ◌∷◌, ◌++◌, OnOk, OnErr, length};
ghost use Rattle.cdcl_clauses.specs.Clauses.{Clause, kept_clause};
ghost use Rattle.cdcl_clauses.specs.declared.watches.Watch.{Watch};
ghost use Rattle.cdcl_steps.specs.Attached.{both_listed};

use cdcl_clauses::{Clauses, Watch, Watches};
use cdcl_literals::{ClauseId, Literal};
use std::alloc::AllocError;

/// Adds a clause to the watch lists of the two literals that it watches; or changes nothing.
pub fn attach(
    clauses: &mut Clauses,
    watches: &mut Watches,
    literals: &[Literal],
    first: Literal,
    second: Literal,
) -> Result<(), AllocError>
    requires few { length clauses.old < 2 ^ 32 }
    requires first { first < length watches.old }
    requires second { second < length watches.old }
    ensures ok_clauses { OnOk result (clauses.new ≡ clauses.old ++ kept_clause literals.now first second ∷ []) }
    ensures ok_watches { OnOk result (watches.new ≡ both_listed watches.old (length clauses.old) first second) }
    ensures err_clauses { OnErr result (clauses.new ≡ clauses.old) }
    ensures err_watches { OnErr result (watches.new ≡ watches.old) }
{
    let clause = clauses.next_id();
    clauses.push(literals, first, second)?;
    if let Err(error) = stand(watches, clause, first, second) {
        clauses.pop();
        return Err(error);
    }
    Ok(())
}

/// Removes the last clause, which is last in both watch lists.
pub fn detach(clauses: &mut Clauses, watches: &mut Watches, first: Literal, second: Literal)
    requires first { first < length watches.old }
    requires second { second < length watches.old }
    ensures clauses { (cs : List Clause) (literals : List ℕ)
        → clauses.old ≡ cs ++ kept_clause literals first second ∷ [] → clauses.new ≡ cs }
    ensures watches { (ws : List (List Watch)) (k : ℕ)
        → watches.old ≡ both_listed ws k first second → watches.new ≡ ws }
{
    watches.pop(second);
    watches.pop(first);
    clauses.pop();
}

/// Adds a clause to both watch lists; or changes nothing.
fn stand(
    watches: &mut Watches,
    clause: ClauseId,
    first: Literal,
    second: Literal,
) -> Result<(), AllocError>
    requires first { first < length watches.old }
    requires second { second < length watches.old }
    ensures ok { OnOk result (watches.new ≡ both_listed watches.old clause first second) }
    ensures err { OnErr result (watches.new ≡ watches.old) }
{
    watches.push(
        first,
        Watch {
            clause,
            blocker: second,
        },
    )?;
    if let Err(error) = watches.push(
        second,
        Watch {
            clause,
            blocker: first,
        },
    ) {
        watches.pop(first);
        return Err(error);
    }
    Ok(())
}
