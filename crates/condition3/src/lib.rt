// Condition 3 of the tender, of every list of calls: its statement in specs/, its proof in proofs/.
// No code.

#![tactic(auto)]
