//! The run of a lawful order of events, and how far a history has followed it. Definitions only.
#![tactic(auto)]
