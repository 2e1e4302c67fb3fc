// A line of the store's driver: parsed, carried out on the block, and answered by a line (document
// 01: store frames).

#![tactic(auto)]

pub mod input;

ghost use Rattle.std.specs.Prelude.{◌≡◌, length};
ghost use Rattle.std.proofs.lemmas.List.Edits.{sets};
ghost use Rattle.store_frames.specs.StoreFrames.{framed, frame_bytes, store_frame_of, parsed};
ghost use Rattle.lines.specs.Lines.{call_answer, call_block, call_output, parsed_answer};
ghost use Rattle.lines.specs.Lines.{parsed_block, parsed_output, line_reply, line_block};

use protocol::Answer;
use store_frames::{MOST_FRAME, MOST_LOG_FRAME, MOST_REPLY, Parsed, StoreFrame};

// The call of a frame, whose bytes are `f`. A write's values are those from byte 10 on, a mixed
// start's those from byte 18 on.
fn call(b: &mut [u64], frame: StoreFrame, f: &[u8], shown: &mut [u8]) -> Answer
    requires { framed frame (length f.now) ≡ parsed f.now }
    ensures value { result ≡ call_answer b.old f.now shown.old frame }
    ensures b_after { b.new ≡ call_block b.old f.now
        shown.old frame }
    ensures shown_after { shown.new ≡ call_output b.old f.now
        shown.old frame }
{
    match frame {
        StoreFrame::Fresh {
            clients,
            partitions,
            items,
        } => store_calls::fresh(b, clients, partitions, items),
        StoreFrame::Read { client, set } => store_calls::start_read(b, client, set),
        StoreFrame::Write { client, set } => store_calls::start_write(b, client, set, &f[10..]),
        StoreFrame::Deliver { place } => deliver_call::deliver(b, place),
        StoreFrame::Show { client } => store_calls::show(b, client, shown),
        StoreFrame::FastRead { client, set } => store_calls::start_fast_read(b, client, set),
        StoreFrame::Clear => store_calls::clear(b),
        StoreFrame::HandOver { giver, receiver } => store_calls::hand_over(b, giver, receiver),
        StoreFrame::Compare { first, second } => store_calls::compare(b, first, second),
        StoreFrame::Mixed {
            client,
            reads,
            writes,
        } => store_calls::start_mixed(b, client, reads, writes, &f[18..]),
        StoreFrame::Check => store_calls::check(b),
    }
}

// The call of a line's frame; 15 where the line is malformed.
fn carry_out(b: &mut [u64], line: &[u8], shown: &mut [u8]) -> Answer
    ensures value { result ≡ parsed_answer b.old (frame_bytes line.now)
        shown.old (store_frame_of line.now) }
    ensures b_after { b.new ≡ parsed_block b.old (frame_bytes line.now)
        shown.old (store_frame_of line.now) }
    ensures shown_after { shown.new ≡ parsed_output b.old
        (frame_bytes line.now) shown.old (store_frame_of line.now) }
{
    let mut bytes = [0; MOST_FRAME];
    let Some(Parsed { frame, length }) = frame_reader::read_frame(line, &mut bytes) else {
        // Stays a number: document 01's form is an else branch that answers 15.
        return Answer::Refused(15);
    };
    call(b, frame, &bytes[..length], shown)
}

// Carries out a line on the block, writes the line that answers it to the front of `output`, and
// gives that line's length.
#[tactic(auto, unfolding(crate::specs::Lines::blank))]
pub fn answer_line(b: &mut [u64], line: &[u8], output: &mut [u8; MOST_REPLY]) -> usize
    ensures value { result ≡ length (line_reply b.old line.now) }
    ensures output_after { output.new ≡ sets output.old 0
        (line_reply b.old line.now) }
    ensures b_after { b.new ≡ line_block b.old line.now }
{
    let mut shown = [0; MOST_LOG_FRAME];
    let answer = carry_out(b, line, &mut shown);
    answer_writer::put_answer(answer, &shown, output)
}
