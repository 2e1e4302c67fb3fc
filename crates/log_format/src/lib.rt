// Logs: lines, frames, what is malformed. Definitions and laws, in specs/ and proofs/; no code.

#![tactic(auto)]
