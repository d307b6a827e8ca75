//! Laws of the grammar. They do nothing when they run.
ghost use Rattle.std.specs.Prelude.{◌≡◌, ◌≤◌, ◌⊎◌, ℕ, List};
ghost use Rattle.tc_syntax.specs.tc_tree.declared.word.Word.{Word as OneWord};
ghost use Rattle.tc_syntax.specs.tc_tree.Grammar.{Program as OneProgram, AreOf, IsSpelled, IsSyntaxFault};

/// Words are at most one program: with its precedence, the grammar is unambiguous.
pub fn words_are_one_program()
    ensures { (language : ℕ) (words : List OneWord) (this that : OneProgram)
        → IsSpelled language words this → IsSpelled language words that → this ≡ that }
{}

/// Words are a program or have one fault, at a word or at their end, and never both.
pub fn words_have_one_fault()
    ensures some { (words : List OneWord)
        → ((program : OneProgram) × IsSpelled 4 words program) ⊎ ((k : ℕ) × IsSyntaxFault 4 words k) }
    ensures earlier { (language : ℕ) (words : List OneWord) → 1 ≤ language → AreOf language words
        → ((program : OneProgram) × IsSpelled language words program) ⊎ ((k : ℕ) × IsSyntaxFault language words k) }
    ensures one { (language : ℕ) (words : List OneWord) (this that : ℕ)
        → IsSyntaxFault language words this → IsSyntaxFault language words that → this ≡ that }
    ensures none { (language : ℕ) (words : List OneWord) (k : ℕ) (program : OneProgram)
        → IsSyntaxFault language words k → IsSpelled language words program → ⊥ }
{}
