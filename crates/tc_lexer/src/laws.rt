//! Laws of the definitions of a text's tokens. They do nothing when they run.
ghost use Rattle.std.specs.Prelude.{◌≡◌, ◌↔◌, ℕ, ◌≤◌, List, ◌++◌, length, IsTrue, All};
ghost use Rattle.tc_lexer.specs.declared.token.Token.{Token as OneToken};
ghost use Rattle.tc_lexer.specs.declared.fault.LexFault.{LexFault as OneFault};
ghost use Rattle.tc_lexer.specs.Tokens.{plain_tokens};
ghost use Rattle.tc_lexer.specs.Pieces.{Piece, written, IsPiece, Begins};
ghost use Rattle.tc_lexer.specs.Text.{AreTokens, IsFault, IsSpan};
ghost use Rattle.tc_lexer.specs.Languages.{have_no_shift, HaveNoKeywordOf};

/// A text has at most one list of tokens.
pub fn tokens_are_one()
    ensures { (language : ℕ) (text : List ℕ) (these those : List OneToken)
        → AreTokens language text these → AreTokens language text those → these ≡ those }
{}

/// A text without tokens has exactly one fault, and one with tokens has none.
pub fn faults_are_one()
    ensures some { (language : ℕ) (text : List ℕ)
        → ((tokens : List OneToken) → AreTokens language text tokens → ⊥)
        → (fault : OneFault) × IsFault language text fault }
    ensures one { (language : ℕ) (text : List ℕ) (this that : OneFault)
        → IsFault language text this → IsFault language text that → this ≡ that }
    ensures none { (language : ℕ) (text : List ℕ) (tokens : List OneToken) (fault : OneFault)
        → AreTokens language text tokens → IsFault language text fault → ⊥ }
{}

/// Each token and each blank of a text is the longest that is possible there.
pub fn pieces_are_longest()
    ensures { (language : ℕ) (bytes : List ℕ) (p : Piece) (rest : List ℕ) (q : Piece) (after : List ℕ)
        → Begins language bytes p rest → IsPiece language q → bytes ≡ written q ++ after
        → length (written q) ≤ length (written p) }
{}

/// Each token has its spelling at its span of the text.
pub fn tokens_are_spans()
    ensures { (language : ℕ) (text : List ℕ) (tokens : List OneToken)
        → AreTokens language text tokens → All (IsSpan language text) tokens }
{}

/// The tokens of a text in language 1 are its tokens in language 2, if no `<` comes directly before
/// `<` or `<=`, and no `>` before `>` or `>=`.
pub fn language_2_has_the_tokens_of_1()
    ensures { (text : List ℕ) (tokens : List OneToken)
        → AreTokens 1 text tokens → IsTrue (have_no_shift (plain_tokens text tokens)) → AreTokens 2 text tokens }
{}

/// The tokens of a text in language 2 are its tokens in language 3, if `swap`, `cas` and `stbar`
/// aren't names in it.
pub fn language_3_has_the_tokens_of_2()
    ensures { (text : List ℕ) (tokens : List OneToken)
        → AreTokens 2 text tokens → HaveNoKeywordOf 3 (plain_tokens text tokens) → AreTokens 3 text tokens }
{}

/// Language 4 has the tokens of language 3, and its faults.
pub fn language_4_has_the_tokens_of_3()
    ensures tokens { (text : List ℕ) (tokens : List OneToken) → AreTokens 3 text tokens ↔ AreTokens 4 text tokens }
    ensures faults { (text : List ℕ) (fault : OneFault) → IsFault 3 text fault ↔ IsFault 4 text fault }
{}
