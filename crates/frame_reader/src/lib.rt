// A line read as the frame that it is (document 01: store frames).

#![tactic(auto)]

ghost use Rattle.std.specs.Prelude.{Option, ◌≡◌, ◌≤◌, length};
ghost use Rattle.std.proofs.lemmas.List.Edits.{sets};
ghost use Rattle.store_frames.specs.Limits.{most_frame};
ghost use Rattle.store_frames.specs.StoreFrames.{kind_of, is_valued, parsed, store_frame_of};
ghost use Rattle.store_frames.specs.StoreFrames.{decoded_line, stored_bytes};

use hexadecimal::{decode, number_at};
use store_frames::{MOST_FRAME, MOST_LINE, Parsed, StoreFrame};

// Whole values of 4 bytes stand behind the first `head` bytes of a frame, 0 to 64 of them.
fn is_valued(f: &[u8], head: usize) -> bool
    requires { head ≤ 18 }
    ensures { result ≡ is_valued (kind_of f.now) head f.now }
{
    let values = f.len().saturating_sub(head) / 4;
    (f.len() == head + 4 * values) & (values <= 64)
}

// The frame of some bytes, of which the first says which it is.
#[tactic(auto, unfolding(store_frames::specs::StoreFrames::parsed, hexadecimal::specs::Number::number_at))]
fn parse(f: &[u8]) -> Option<Parsed>
    ensures { result ≡ parsed f.now }
{
    let length = f.len();
    let frame = match *f {
        [0x01, clients, partitions, items] => StoreFrame::Fresh {
            clients: u64::from(clients),
            partitions: u64::from(partitions),
            items: u64::from(items),
        },
        [0x02, client, ..] if length == 10 => StoreFrame::Read {
            client: u64::from(client),
            set: number_at(f, 2, 8),
        },
        [0x03, client, ..] if is_valued(f, 10) => StoreFrame::Write {
            client: u64::from(client),
            set: number_at(f, 2, 8),
        },
        [0x04, _, _] => StoreFrame::Deliver {
            place: number_at(f, 1, 2),
        },
        [0x05, client] => StoreFrame::Show {
            client: u64::from(client),
        },
        [0x06, client, ..] if length == 10 => StoreFrame::FastRead {
            client: u64::from(client),
            set: number_at(f, 2, 8),
        },
        [0x07, client, ..] if is_valued(f, 18) => StoreFrame::Mixed {
            client: u64::from(client),
            reads: number_at(f, 2, 8),
            writes: number_at(f, 10, 8),
        },
        [0x40] => StoreFrame::Clear,
        [0x41, giver, receiver] => StoreFrame::HandOver {
            giver: u64::from(giver),
            receiver: u64::from(receiver),
        },
        [0x42, first, second] => StoreFrame::Compare {
            first: u64::from(first),
            second: u64::from(second),
        },
        [0x43] => StoreFrame::Check,
        _ => return None,
    };
    Some(Parsed { frame, length })
}

// Stores the bytes of a line's digits at the front of `bytes`, and answers how many they are.
#[tactic(auto, unfolding(store_frames::specs::StoreFrames::stored_bytes))]
fn decode_line(line: &[u8], bytes: &mut [u8]) -> Option<usize>
    requires { most_frame ≤ length bytes.old }
    ensures value { result ≡ decoded_line line.now }
    ensures bytes_after { bytes.new ≡ sets bytes.old 0
        (stored_bytes line.now) }
{
    match line {
        [text @ .., 0x0a] if line.len() <= MOST_LINE => decode(text, bytes),
        _ => None,
    }
}

// Reads a line: its frame, whose bytes are then those of `bytes`, from the front on.
pub fn read_frame(line: &[u8], bytes: &mut [u8; MOST_FRAME]) -> Option<Parsed>
    ensures value { result ≡ store_frame_of line.now }
    ensures bytes_after { bytes.new ≡ sets bytes.old 0
        (stored_bytes line.now) }
{
    let n = decode_line(line, bytes)?;
    parse(&bytes[..n])
}
