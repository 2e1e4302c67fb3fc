// An answer written as its line (document 01: store frames).

#![tactic(auto)]

ghost use Rattle.std.specs.Prelude.{◌∷◌, ◌≡◌, ◌+◌, ◌*◌, ◌%◌, ◌≤◌, length};
ghost use Rattle.std.proofs.lemmas.List.Edits.{sets};
ghost use Rattle.store_frames.specs.Answers.{line_of, answer_line};

use hexadecimal::{encode, put_byte};
use protocol::Answer;
use store_frames::{MOST_LOG_FRAME, MOST_REPLY};

// The lowest byte of a number.
fn byte(n: u64) -> u8
    ensures { result ≡ n % 256 }
{
    (n % 256) as u8
}

// Writes the line of `status` and `bytes` to the front of `out`, and answers its length.
fn put_line(out: &mut [u8], status: u8, bytes: &[u8]) -> usize
    requires { 2 * length bytes.now + 3 ≤ length out.old }
    ensures value { result ≡ length (line_of (status ∷ bytes.now)) }
    ensures out_after { out.new ≡ sets out.old 0
        (line_of (status ∷ bytes.now)) }
{
    let n = bytes.len();
    put_byte(out, 0, status);
    encode(bytes, out, 2);
    out[2 * n + 2] = 0x0a;
    2 * n + 3
}

// Writes an answer's line to the front of `out`, and answers its length. What a show wrote is the
// front of `shown`.
#[tactic(auto, unfolding(store_frames::specs::Answers::answer_line, protocol::specs::Calls::bytes_of_answer, hexadecimal::specs::Number::big_endian))]
pub fn put_answer(a: Answer, shown: &[u8; MOST_LOG_FRAME], out: &mut [u8; MOST_REPLY]) -> usize
    ensures value { result ≡ length (answer_line a shown.now) }
    ensures out_after { out.new ≡ sets out.old 0
        (answer_line a shown.now) }
{
    match a {
        Answer::Refused(n) => put_line(out, byte(n), &[]),
        Answer::Made | Answer::Checked => put_line(out, 0, &[]),
        Answer::Started { length } => put_line(out, 0, &[byte(length / 256), byte(length)]),
        Answer::Delivered {
            kind,
            length,
            outcome,
        } => put_line(
            out,
            0,
            &[byte(kind), byte(length / 256), byte(length), byte(outcome)],
        ),
        Answer::Shown { length } => {
            let n = length.min(shown.len() as u64) as usize;
            put_line(out, 0, &shown[..n])
        }
        Answer::Cleared { gone } => put_line(out, 0, &[byte(gone / 256), byte(gone)]),
        Answer::HandedOver { giver, receiver } => {
            put_line(out, 0, &[0x22, byte(giver), byte(receiver)])
        }
        Answer::Compared { standing } => put_line(out, 0, &[byte(standing)]),
    }
}
