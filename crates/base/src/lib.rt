// Definitions and laws that belong to no document: the crate is its specs/ and proofs/.
#![tactic(auto)]
