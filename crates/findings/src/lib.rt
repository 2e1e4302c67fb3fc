// What the judge answers. The findings and the verdict on a log are definitions, in specs/; what
// the verdict says in the words of the sources is proved in proofs/.

#![tactic(auto)]

// Stays a number and a line: `Says` of specs/Published.antt and the theorem that the judge ensures
// speak of `Judged finding line` by its number, and of 0 and 0.
#[derive(Drop)]
pub enum Verdict {
    // Over 32,768 bytes or over 256 line ends: refusal 16.
    TooLong,
    // Refusal 15, with the first malformed line, counted from 1.
    Malformed { line: u16 },
    // The finding, 1 to 3, with the first line at fault; 0 and 0 where the log is clean.
    Judged { finding: u8, line: u16 },
}
