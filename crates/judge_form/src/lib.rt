// Which frames are well-formed (document 01: log frames).

#![tactic(auto)]

ghost use Rattle.std.specs.Prelude.{◌≡◌, ◌≤◌};
ghost use Rattle.log_format.specs.Log.{is_client, is_whole, entry_number, entry_writer, entries_whole};
ghost use Rattle.log_format.specs.Log.{read_shaped, write_shaped, hand_over_shaped, shaped as shaped_as};
ghost use Rattle.judge_form.specs.Parsed.{parsed, is_write_of};

use judge_frames::fields::{
    byte, client, frame_end, hands_over, has_read, has_write, receiver, shown, shown_count, word,
    write_number, written,
};

// What a line's frame parses to: its client, and the number of its write; 0 where it has no write
// part.
#[derive(Clone, Copy)]
pub struct Parsed {
    pub client: u64,
    pub number: u64,
}

// A client (desk) is 1 to 8.
fn is_client(d: u64) -> bool
    ensures { result ≡ is_client d }
{
    matches!(d, 1..=8)
}

// Number and writing client are both 0, or at least 1 and 1 to 8.
fn is_whole(number: u64, writer: u64) -> bool
    ensures { result ≡ is_whole number writer }
{
    (number == 0 && writer == 0) || (1 <= number && is_client(writer))
}

// The i-th entry that a read shows has a whole stamp.
fn entry_whole(f: &[u8], i: usize) -> bool
    requires { i ≤ 64 }
    ensures { result ≡ is_whole (entry_number f.now i)
        (entry_writer f.now i) }
{
    let at = 10 + 9 * i;
    is_whole(word(f, at), byte(f, at + 4))
}

// Every entry that a read shows has a whole stamp.
fn entries_whole(f: &[u8]) -> bool
    ensures { result ≡ entries_whole f.now }
{
    (0..shown_count(f)).all(|i| entry_whole(f, i))
}

// The read part, where there is one: a nonempty set, and whole stamps.
#[tactic(auto, unfolding(log_format::specs::Log::read_shaped))]
fn read_shaped(f: &[u8]) -> bool
    ensures { result ≡ read_shaped f.now }
{
    !has_read(f) || (1 <= shown(f) && entries_whole(f))
}

// The write part, where there is one: a nonempty set, and a number of 1 or more.
#[tactic(auto, unfolding(log_format::specs::Log::write_shaped))]
fn write_shaped(f: &[u8]) -> bool
    ensures { result ≡ write_shaped f.now }
{
    !has_write(f) || (1 <= written(f) && 1 <= write_number(f))
}

// The receiver of a hand-over: a client, and not the giver.
#[tactic(auto, unfolding(log_format::specs::Log::hand_over_shaped))]
fn hand_over_shaped(f: &[u8]) -> bool
    ensures { result ≡ hand_over_shaped f.now }
{
    !hands_over(f) || (is_client(receiver(f)) && receiver(f) != client(f))
}

// A log frame: its kind, its client, its parts, and nothing behind them.
#[tactic(auto, unfolding(log_format::specs::Log::shaped))]
fn shaped(f: &[u8]) -> bool
    ensures { result ≡ shaped_as f.now }
{
    (has_read(f) || has_write(f) || hands_over(f))
        && is_client(client(f))
        && f.len() == frame_end(f)
        && read_shaped(f)
        && write_shaped(f)
        && hand_over_shaped(f)
}

// The client and the number of a log frame; none of a malformed one.
#[tactic(auto, unfolding(crate::specs::Parsed::parsed))]
pub fn parse(f: &[u8]) -> Option<Parsed>
    ensures { result ≡ parsed f.now }
{
    shaped(f).then(|| Parsed {
        client: client(f),
        number: write_number(f),
    })
}

// `w` is of that client, and has a number.
#[tactic(auto, unfolding(crate::specs::Parsed::is_write_of))]
pub fn is_write_of(w: &[u8], of: u64) -> bool
    ensures { result ≡ is_write_of of w.now }
{
    client(w) == of && 1 <= write_number(w)
}
