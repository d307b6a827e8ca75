//! Laws of the format of answers: clauses of functions that do nothing.
ghost use Rattle.std.specs.Prelude.{◌≡◌, ◌⊎◌, ℕ, ℤ, List};
ghost use Rattle.dimacs_text.specs.Answers.{IsAnswerWith};
ghost use Rattle.dimacs_text.specs.Faults.{BreaksAt};

/// A text either is an answer with one list of literals, or has a first line that breaks the form.
pub fn texts_have_one_reading()
    ensures some { (text : List ℕ) → ((literals : List ℤ) × IsAnswerWith text literals) ⊎ ((number : ℕ) × BreaksAt text number) }
    ensures one { (text : List ℕ) (these those : List ℤ) → IsAnswerWith text these → IsAnswerWith text those → these ≡ those }
    ensures one_break { (text : List ℕ) (this that : ℕ) → BreaksAt text this → BreaksAt text that → this ≡ that }
    ensures never_both { (text : List ℕ) (literals : List ℤ) (number : ℕ) → IsAnswerWith text literals → BreaksAt text number → ⊥ }
{}
