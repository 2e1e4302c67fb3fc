// Definitions and laws that the other crates share: see specs/ and proofs/. No code.

#![tactic(auto)]
