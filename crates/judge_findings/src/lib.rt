// The three findings at one item that a read shows, and two tables: the lines that write, and whose
// own each line's write is (document 01: findings; document 02, P6).

#![tactic(auto)]

pub mod faults;
pub mod owners;
pub mod writes;
