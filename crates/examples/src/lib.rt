// Document 01's starred examples, of the store and of the judge: one table, in proofs/. No code.

#![tactic(auto)]
