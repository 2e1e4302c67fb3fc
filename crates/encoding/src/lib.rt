// That a block and the tables that it holds tell the same: the decoder, the encoding and which
// blocks are valid. No code: see proofs/.

#![tactic(auto)]
