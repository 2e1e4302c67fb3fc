// A log's lines, found once: each is decoded behind the last one, parsed, and marked by its start
// (document 01: frames).

#![tactic(auto)]

ghost use Rattle.std.specs.Prelude.{◌≡◌, ◌+◌, ◌/◌, ◌≤◌, ◌<◌, length};
ghost use Rattle.std.proofs.lemmas.List.Edits.{sets};
ghost use Rattle.hexadecimal.specs.Decode.{decoded};
ghost use Rattle.hexadecimal.specs.Text.{bytes_of};
ghost use Rattle.judge_frames.specs.Cut.{frames_in};
ghost use Rattle.log_format.specs.Log.{reaches as reaches_of};
ghost use Rattle.judge_form.specs.Parsed.{refused};
ghost use Rattle.judge_scan.specs.Scan.{TakenOf, Room, Scanning, ScannedOf, Well};
ghost use Rattle.log_format.specs.Some.{some};

use judge_form::{Parsed, is_write_of, parse};
use judge_frames::cut::{Frames, part, start};
use judge_frames::fields::write_number;

// One of the first `n` frames is of that client, with that number or a greater one. A client's
// numbers rise, so its last write decides.
fn reached(frames: Frames, n: usize, of: u64, number: u64) -> bool
    requires { (n ≤ 65536) × (1 ≤ number) × Well (frames_in frames.bytes.now frames.starts.now n) }
    ensures { result ≡ some (reaches_of of number)
        (frames_in frames.entry.bytes.now frames.entry.starts.now n) }
{
    for j in (0..n).rev() {
        let w = frames.frame(j);
        if is_write_of(w, of) {
            return number <= write_number(w);
        }
    }
    false
}

// The same of a number of 1 or more; 0, where there is no write part, rises over nothing.
fn repeats(frames: Frames, n: usize, f: Parsed) -> bool
    requires { (n ≤ 65536) × Well (frames_in frames.bytes.now frames.starts.now n) }
    ensures { result ≡ refused
        (frames_in frames.entry.bytes.now frames.entry.starts.now n) (Some f) }
{
    1 <= f.number && reached(frames, n, f.client, f.number)
}

// Writes the bytes of a line's digits into `bytes` from `end` on, and answers how many they are; no
// number where the line isn't digits.
fn store(line: &[u8], bytes: &mut [u8], end: usize) -> Option<usize>
    requires { end + length line.now / 2 ≤ length bytes.old }
    ensures value { result ≡ decoded line.now }
    ensures bytes_after { bytes.new ≡ sets bytes.old end
        (bytes_of line.now) }
{
    hexadecimal::decode(line, &mut bytes[end..])
}

// Takes line `i`, which begins at `at`, and answers where the next one begins; nothing where the
// line is malformed.
fn take_line(
    log: &[u8],
    at: usize,
    bytes: &mut [u8],
    starts: &mut [usize],
    i: usize,
) -> Option<usize>
    requires { Room log.now at bytes.old starts.old i }
    ensures { TakenOf log.now at i bytes.old starts.old
        bytes.new starts.new result }
{
    let end = start(starts, i);
    let e = hexadecimal::line_end(log, at);
    if e >= log.len() {
        return None;
    }
    let size = store(&log[at..e], bytes, end)?;
    // Stays a `let .. else`: document 01, 'Our forms for each place'.
    let Some(frame) = parse(part(bytes, end, end + size)) else {
        return None;
    };
    if repeats(Frames { bytes, starts }, i, frame) {
        return None;
    }
    starts[i + 1] = end + size;
    Some(e + 1)
}

// The first malformed line of a log, counted from 0.
#[derive(Clone, Copy)]
pub struct BadLine {
    pub line: usize,
}

// Takes the lines of `log`, up to the first malformed one, and answers how many there are.
pub fn scan(log: &[u8], bytes: &mut [u8], starts: &mut [usize]) -> Result<usize, BadLine>
    requires { Scanning log.now 0 bytes.old starts.old 0 }
    ensures { ScannedOf log.now bytes.new starts.new result }
{
    let mut at = 0;
    let mut i = 0;
    // Stays a `while`: only taking a line tells where the next one begins.
    while at < log.len() {
        at = take_line(log, at, bytes, starts, i).ok_or(BadLine { line: i })?;
        i += 1;
    }
    Ok(i)
}
