//! Laws of the definitions of a program's text. They do nothing when they run.
ghost use Rattle.std.specs.Prelude.{◌≡◌, ◌≤◌, ◌⊎◌, ◌↔◌, ℕ, List};
ghost use Rattle.tc_lexer.specs.declared.token.Token.{Token as OneToken};
ghost use Rattle.tc_lexer.specs.Tokens.{plain_tokens};
ghost use Rattle.tc_lexer.specs.Text.{AreTokens};
ghost use Rattle.tc_lexer.specs.Languages.{HaveNoKeywordOf};
ghost use Rattle.tc_tree.specs.Grammar.{Program as OneProgram, AreOf, program_words};
ghost use Rattle.tc_tree.specs.Numbers.{HasInts};
ghost use Rattle.tc_parser.specs.declared.fault.TextFault.{TextFault as OneFault};
ghost use Rattle.tc_parser.specs.Languages.{IsPastUpdate};
ghost use Rattle.tc_parser.specs.Programs.{IsProgram, IsTextFault};

/// A text is at most one program.
pub fn programs_are_one()
    ensures { (language : ℕ) (text : List ℕ) (this that : OneProgram)
        → IsProgram language text this → IsProgram language text that → this ≡ that }
{}

/// In each language, a text is a program or has exactly one fault, and never both.
pub fn faults_are_one()
    ensures some { (language : ℕ) (text : List ℕ) → 1 ≤ language
        → ((program : OneProgram) × IsProgram language text program) ⊎ ((fault : OneFault) × IsTextFault language text fault) }
    ensures one { (language : ℕ) (text : List ℕ) (this that : OneFault)
        → IsTextFault language text this → IsTextFault language text that → this ≡ that }
    ensures none { (language : ℕ) (text : List ℕ) (program : OneProgram) (fault : OneFault)
        → IsProgram language text program → IsTextFault language text fault → ⊥ }
{}

/// Each number of a program is an int.
pub fn numbers_are_ints()
    ensures { (language : ℕ) (text : List ℕ) (program : OneProgram) → IsProgram language text program → HasInts program }
{}

/// A text that is a program in language 1 is the same program in language 2.
pub fn language_2_has_the_programs_of_1()
    ensures { (text : List ℕ) (program : OneProgram) → IsProgram 1 text program → IsProgram 2 text program }
{}

/// A text that is a program in language 2 is the same program in language 3, if `swap`, `cas` and
/// `stbar` aren't names in it.
pub fn language_3_has_the_programs_of_2()
    ensures { (text : List ℕ) (tokens : List OneToken) (program : OneProgram)
        → AreTokens 2 text tokens → HaveNoKeywordOf 3 (plain_tokens text tokens)
        → IsProgram 2 text program → IsProgram 3 text program }
{}

/// A text is a program in language 3 if and only if it is the same program in language 4, and
/// language 3 has all its words: no `add`, and no update of an element. The fault of any other text
/// is the same in both, except perhaps behind such a word.
pub fn language_4_has_the_programs_of_3()
    ensures programs { (text : List ℕ) (program : OneProgram)
        → IsProgram 3 text program ↔ (IsProgram 4 text program × AreOf 3 (program_words program)) }
    ensures faults { (text : List ℕ) (fault : OneFault)
        → IsTextFault 3 text fault → IsTextFault 4 text fault ⊎ IsPastUpdate text fault }
{}
