//! What the groups mean. The function's clause is a law; its body does nothing.
ghost use Rattle.why_impossible.specs.reached_groups.Laws.{GroupsBind};

/// No world makes the conjuncts of all groups true that a closed derivation reaches.
pub fn groups_bind()
    ensures { GroupsBind }
{}
