//! A law of the definitions. It does nothing when it runs.
ghost use Rattle.std.specs.Prelude.{ℕ, List, ◌∷◌, ◌++◌};
ghost use Rattle.tc_lexer.specs.declared.token.Token.{Token as OneToken};
ghost use Rattle.next_tokens.specs.Next.{AreProgram, GoesOnWith};

/// If a program goes on with a token, whatever follows it, then the token's kind is among those
/// with which some program goes on.
pub fn no_kind_is_missed()
    ensures { (text : List ℕ) (before more : List OneToken) (token : OneToken)
        → AreProgram text (before ++ token ∷ more) → GoesOnWith text before token.kind }
{}
