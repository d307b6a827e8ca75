//! Lines that say more than unit propagation finds: laws, as clauses of functions that do nothing.
ghost use Rattle.cdcl_lines.specs.Fresh.{FreshGoesOn, AssertedIsFresh, FreshSaysMore, AddedIsFresh};

/// Fresh lines with one more fresh line are fresh.
pub fn fresh_goes_on()
    ensures { FreshGoesOn }
{}

/// If all is propagated without conflict, a clause with one open literal, the rest false, is fresh.
pub fn asserted_is_fresh()
    ensures { AssertedIsFresh }
{}

/// No kept clause has all its literals in a fresh clause.
pub fn fresh_says_more()
    ensures { FreshSaysMore }
{}

/// The line of a fresh clause is fresh.
pub fn added_is_fresh()
    ensures { AddedIsFresh }
{}
