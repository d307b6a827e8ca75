//! Lists, options and truth values: definitions and lemmas that have nothing to do with a program or a run.
#![tactic(auto)]
