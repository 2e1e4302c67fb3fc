// Reads a log from standard input and prints the judge's verdict as a line of hexadecimal (document
// 01: frames). It sees only the judge's promise.

#![tactic(auto)]

ghost use Rattle.std.specs.Prelude.{[], ◌∷◌, ◌++◌, ◌≡◌, ◌+◌, ◌≤◌, ◌<◌, length, take};
ghost use Rattle.std.proofs.lemmas.List.Edits.{sets};
ghost use Rattle.hexadecimal.specs.Number.{big_endian};
ghost use Rattle.hexadecimal.specs.Text.{hex_text};
ghost use Rattle.findings.specs.Findings.{bytes_of, verdict};
ghost use Rattle.judge_driver.specs.Input.{TurnOf, FilledBy};

use findings::Verdict;
use std::io::{Read, Stdin, Stdout, Write};

// The bytes of `chunk` join the `done` bytes that `buf` keeps.
fn keep(buf: &mut [u8], done: usize, chunk: &[u8])
    requires { done + length chunk.now ≤ length buf.old }
    ensures { buf.new ≡ sets buf.old done chunk.now }
{
    buf[done..done + chunk.len()].copy_from_slice(chunk);
}

// One read, whose bytes join those kept, as many as there is room for; 0 where the input ends.
fn turn(mut stdin: Stdin, buf: &mut [u8], done: usize, chunk: &mut [u8]) -> std::io::Result<usize>
    requires { done < length buf.old }
    ensures { TurnOf buf.old done buf.new chunk.new result }
{
    let size = stdin.read(chunk)?.min(buf.len() - done);
    keep(buf, done, &chunk[..size]);
    Ok(size)
}

// Reads until `buf` is full or the input ends, by way of `chunk`, and answers how many bytes came.
fn fill(stdin: Stdin, buf: &mut [u8], chunk: &mut [u8]) -> std::io::Result<usize>
    ensures { FilledBy buf.old buf.new result }
{
    let mut done = 0;
    // Stays a `while`: only a read tells how many bytes it gives.
    while done < buf.len() {
        let n = turn(stdin, buf, done, chunk)?;
        if n == 0 {
            return Ok(done);
        }
        done += n;
    }
    Ok(done)
}

// A verdict's bytes as one number of `size` bytes.
#[derive(Drop)]
struct Answer {
    size: usize,
    number: u64,
}

fn answer_of(v: Verdict) -> Answer
    ensures number_value { big_endian result.size result.number ≡ bytes_of v }
    ensures size_bound { result.size ≤ 4 }
{
    match v {
        Verdict::TooLong => Answer {
            size: 1,
            number: 16,
        },
        Verdict::Malformed { line } => Answer {
            size: 3,
            number: 15 * 65536 + u64::from(line),
        },
        Verdict::Judged { finding, line } => Answer {
            size: 4,
            number: u64::from(finding) * 65536 + u64::from(line),
        },
    }
}

// Writes a verdict's line to the front of `out`, and answers its length.
fn write_line(v: Verdict, out: &mut [u8]) -> usize
    requires { 9 ≤ length out.old }
    ensures out_after { take result out.new ≡ hex_text (bytes_of v) ++ 0x0a ∷ [] }
    ensures upper_bound { result ≤ length out.old }
{
    let a = answer_of(v);
    let size = a.size;
    hexadecimal::put_number(out, 0, size, a.number);
    out[2 * size] = 0x0a;
    2 * size + 1
}

// Writes the line of a log's verdict to the front of `out`, and answers its length.
fn write_verdict(log: &[u8], out: &mut [u8]) -> usize
    requires { 9 ≤ length out.old }
    ensures out_after { take result out.new ≡ hex_text (bytes_of (verdict log.now))
        ++ 0x0a ∷ [] }
    ensures upper_bound { result ≤ length out.old }
{
    write_line(judge::judge(log), out)
}

// Judges what the input gives; a failed read gives no verdict.
fn judge_input(
    stdin: Stdin,
    mut stdout: Stdout,
    buf: &mut [u8],
    chunk: &mut [u8],
) -> std::io::Result<()> {
    let n = fill(stdin, buf, chunk)?;
    let mut out = [0u8; 9];
    let size = write_verdict(&buf[..n], &mut out);
    stdout.write_all(&out[..size])
}

// The buffer is longer than a log may be: an input that fills it is over the limit. After a failed
// read or write nothing is left to do.
fn main(rt: HostRuntime) {
    let mut buf = [0u8; 65536];
    let mut chunk = [0u8; 4096];
    let _ = judge_input(rt.stdin(), rt.stdout(), &mut buf, &mut chunk);
}
