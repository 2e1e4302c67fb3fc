// The frames of a log: cut out of an array of bytes, and their parts and fields (document 01: log
// frames).

#![tactic(auto)]

pub mod cut;
pub mod fields;
