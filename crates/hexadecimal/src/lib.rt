// Bytes as lowercase hexadecimal text: two digits a byte, most significant byte first, one frame a
// line.

#![tactic(auto)]

ghost use Rattle.std.specs.Prelude.{◌≡◌, ◌+◌, ◌*◌, ◌/◌, ◌≤◌, ◌<◌, length};
ghost use Rattle.std.proofs.lemmas.List.Edits.{sets};
ghost use Rattle.hexadecimal.specs.Decode.{decoded};
ghost use Rattle.hexadecimal.specs.Digit.{below, digit as digit_of, pair as pair_of};
ghost use Rattle.hexadecimal.specs.Digit.{hex_digit, hex_byte};
ghost use Rattle.hexadecimal.specs.Line.{line_end};
ghost use Rattle.hexadecimal.specs.Number.{number_at, big_endian};
ghost use Rattle.hexadecimal.specs.Text.{bytes_of, hex_text};

// The value of a lowercase hexadecimal digit, 16 for any other byte. Stays a number: the two tests of
// an Option of each digit are jumps on the data, and decoding takes twice as long.
#[tactic(auto, unfolding(crate::specs::Digit::digit))]
fn value(c: u8) -> u8
    ensures { result ≡ digit_of c }
{
    if (b'0' <= c) & (c <= b'9') {
        return c - b'0';
    }
    if (b'a' <= c) & (c <= b'f') {
        return c - 87;
    }
    16
}

// The value of a lowercase hexadecimal digit.
pub fn digit(c: u8) -> Option<u8>
    ensures { result ≡ below 16 (digit_of c) }
{
    let v = value(c);
    if v < 16 { Some(v) } else { None }
}

// The byte of two digits.
#[tactic(auto, unfolding(crate::specs::Digit::pair))]
pub fn pair(h: u8, l: u8) -> Option<u8>
    ensures { result ≡ below 256 (pair_of h l) }
{
    let high = value(h);
    let low = value(l);
    if (high < 16) & (low < 16) {
        Some(high * 16 + low)
    } else {
        None
    }
}

// The digit whose value is `v`.
pub fn hex_digit(v: u8) -> u8
    requires { v < 16 }
    ensures { result ≡ hex_digit v }
{
    if v < 10 { b'0' + v } else { 87 + v }
}

// The big-endian number of the `n` bytes of `s` that begin at `at`.
pub fn number_at(s: &[u8], at: usize, n: usize) -> u64
    requires { (n ≤ 8) × (at + n ≤ length s.now) }
    ensures { result ≡ number_at n s.now at }
{
    let mut number: u64 = 0;
    for byte in &s[at..at + n] {
        number = number * 256 + *byte as u64;
    }
    number
}

// The place of the first byte 0a of `s` at or after `at`; the length of `s` where there is none,
// and `at` where that is past the end.
pub fn line_end(s: &[u8], at: usize) -> usize
    ensures { result ≡ line_end s.now at }
{
    for i in at..s.len() {
        if s[i] == 0x0a {
            return i;
        }
    }
    s.len().max(at)
}

// Writes the two digits of `b` into `out` from `at`.
pub fn put_byte(out: &mut [u8], at: usize, b: u8)
    requires { at + 2 ≤ length out.old }
    ensures { out.new ≡ sets out.old at (hex_byte b) }
{
    out[at] = hex_digit(b / 16);
    out[at + 1] = hex_digit(b % 16);
}

// Writes the digits of the `n` lowest bytes of `x` into `out` from `at`, most significant first.
pub fn put_number(out: &mut [u8], at: usize, n: usize, x: u64)
    requires { at + 2 * n ≤ length out.old }
    ensures { out.new ≡ sets out.old at (hex_text (big_endian n x)) }
{
    let mut rest = x;
    for k in (0..n).rev() {
        put_byte(out, at + 2 * k, (rest % 256) as u8);
        rest /= 256;
    }
}

// Writes the `n` lowest bytes of `x` into `out` from `at`, most significant first: the bytes
// themselves, not their digits.
pub fn put_bytes(out: &mut [u8], at: usize, n: usize, x: u64)
    requires { at + n ≤ length out.old }
    ensures { out.new ≡ sets out.old at (big_endian n x) }
{
    let mut upper = x;
    for k in (0..n).rev() {
        out[at + k] = (upper % 256) as u8;
        upper /= 256;
    }
}

// Writes the digits of `bytes` into `out` from `at`.
pub fn encode(bytes: &[u8], out: &mut [u8], at: usize)
    requires { at + 2 * length bytes.now ≤ length out.old }
    ensures { out.new ≡ sets out.old at (hex_text bytes.now) }
{
    for (k, byte) in bytes.iter().enumerate() {
        put_byte(out, at + 2 * k, *byte);
    }
}

// Writes the bytes of `line` to the front of `out`, and answers how many they are. A line is malformed
// that has a byte that is no digit, or an odd number of digits: it has no number, and the bytes written
// are those before its first pair that isn't two digits.
pub fn decode(line: &[u8], out: &mut [u8]) -> Option<usize>
    requires { length line.now / 2 ≤ length out.old }
    ensures answer { result ≡ decoded line.now }
    ensures stores { out.new ≡ sets out.old 0
        (bytes_of line.now) }
{
    let half = line.len() / 2;
    for k in 0..half {
        out[k] = pair(line[2 * k], line[2 * k + 1])?;
    }
    if line.len() % 2 == 0 {
        Some(half)
    } else {
        None
    }
}
