// The input byte by byte: a line is kept until its 0a comes, and then answered.
ghost use Rattle.std.specs.Prelude.{◌≡◌, length, take, set};
ghost use Rattle.std.proofs.lemmas.List.Edits.{sets};
ghost use Rattle.lines.specs.Input.{joined, kept_after, byte_reply, byte_block};
ghost use Rattle.lines.specs.Input.{end_reply, end_block};
ghost use Rattle.lines.specs.Lines.{line_reply, line_block};

use crate::answer_line;
use store_frames::{MOST_LINE, MOST_REPLY};

// The most bytes that are kept of a line: one more than any frame's has. They stay an array with
// their number beside it: no heap, fixed memory.
pub const MOST_KEPT: usize = MOST_LINE + 1;

// What one byte leads to: so many bytes are kept of the line begun, and the reply has this length.
// Stays a length, 0 where there is no reply: an Option is no plainer, since None would be written
// as no bytes too, and `end` answers so.
#[derive(Drop)]
pub struct Fed {
    pub at: usize,
    pub length: usize,
}

// Keeps byte `c` behind the first `at` bytes of `line`, and answers how many are kept; a full line
// stays.
fn keep(line: &mut [u8; MOST_KEPT], at: usize, c: u8) -> usize
    ensures value { result ≡ length (joined (take at line.old) c) }
    ensures line_after { take result line.new ≡ joined (take at line.old) c }
    ensures line_after_2 { line.new ≡ set line.old at c }
{
    if at < MOST_KEPT {
        line[at] = c;
        at + 1
    } else {
        MOST_KEPT
    }
}

// Answers the first `at` bytes of `line`; all of them where there are fewer.
fn answer_front(
    b: &mut [u64],
    line: &[u8; MOST_KEPT],
    at: usize,
    output: &mut [u8; MOST_REPLY],
) -> usize
    ensures value { result ≡ length (line_reply b.old (take at line.now)) }
    ensures output_after { output.new ≡ sets output.old 0
        (line_reply b.old (take at line.now)) }
    ensures b_after { b.new ≡ line_block b.old (take at line.now) }
{
    answer_line(b, &line[..at.min(MOST_KEPT)], output)
}

// Takes byte `c` of the input, behind the first `at` bytes of `line`: at its 0a the line is carried
// out, and its reply is at the front of `output`.
pub fn feed(
    b: &mut [u64],
    line: &mut [u8; MOST_KEPT],
    at: usize,
    c: u8,
    output: &mut [u8; MOST_REPLY],
) -> Fed
    ensures at_value { result.at ≡ length (kept_after (take at line.old) c) }
    ensures line_after { take result.at line.new ≡ kept_after (take at line.old) c }
    ensures length_value { result.length ≡ length (byte_reply b.old
        (take at line.old) c) }
    ensures output_after { output.new ≡ sets output.old 0
        (byte_reply b.old (take at line.old) c) }
    ensures b_after { b.new ≡ byte_block b.old (take at line.old) c }
    ensures line_after_2 { line.new ≡ set line.old at c }
{
    let n = keep(line, at, c);
    if c == 0x0a {
        let length = answer_front(b, line, n, output);
        Fed { at: 0, length }
    } else {
        Fed { at: n, length: 0 }
    }
}

// At the end of the input: replies to the first `at` bytes of `line`, a line without its 0a, where
// there are any.
pub fn end(b: &mut [u64], line: &[u8; MOST_KEPT], at: usize, output: &mut [u8; MOST_REPLY]) -> usize
    ensures value { result ≡ length (end_reply b.old (take at line.now)) }
    ensures output_after { output.new ≡ sets output.old 0
        (end_reply b.old (take at line.now)) }
    ensures b_after { b.new ≡ end_block b.old (take at line.now) }
{
    if at == 0 {
        0
    } else {
        answer_front(b, line, at, output)
    }
}
