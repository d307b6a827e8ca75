//! What holds of the code of each text. The function does nothing when it runs.
ghost use Rattle.std.specs.Prelude.{◌≡◌, ℕ, List};
ghost use Rattle.tc_code.specs.Code.{Code as OneCode};
ghost use Rattle.tc_parser.specs.declared.fault.TextFault.{TextFault as OneFault};
ghost use Rattle.tc_compile.specs.Programs.{IsCodeOf, IsRefusal};

/// A text has at most one code or one refusal, and never both.
pub fn code_is_one()
    ensures code { (text : List ℕ) (this that : OneCode) → IsCodeOf text this → IsCodeOf text that → this ≡ that }
    ensures refusal { (text : List ℕ) (this that : OneFault) → IsRefusal text this → IsRefusal text that → this ≡ that }
    ensures never_both { (text : List ℕ) (fault : OneFault) (code : OneCode) → IsRefusal text fault → IsCodeOf text code → ⊥ }
{}
