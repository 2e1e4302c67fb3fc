// What each call gives on a block, and condition 3 of lists of calls on a block: definitions and
// laws. No code.

#![tactic(auto)]
