// Definitions and laws on lists and tests that every other crate's definitions use. They stand in
// specs/; there is no code.
#![tactic(auto)]
