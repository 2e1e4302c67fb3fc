// Reads store frames from standard input, a line each, and prints the line that answers each before
// it waits for more (document 01: store frames). It sees only the promises of `lines`, and the
// lengths of a block and a reply. The block starts as zeros, on which every well-formed frame but
// an `01` is refused by 1.

#![tactic(auto)]

ghost use Rattle.std.specs.Prelude.{◌≡◌};
ghost use Rattle.lines.specs.Input.{lent, fed, closed};
ghost use Rattle.store_driver.specs.Turn.{TookOf, TurnOf, ServedBy};

use lines::input::{MOST_KEPT, end, feed};
use std::io::{self, Read, Stdin, Stdout, Write};
use store_frames::MOST_REPLY;

// Writes the first `n` bytes of a reply; no bytes are no call.
fn say(mut stdout: Stdout, reply: &[u8; MOST_REPLY], n: usize) -> io::Result<()> {
    stdout.write_all(&reply[..n.min(MOST_REPLY)])
}

// Takes one byte of the input, and prints the reply where it ends a line. Of the line begun `at`
// bytes are kept.
#[tactic(auto, unfolding(lines::specs::Input::fed))]
fn take_byte(
    stdout: Stdout,
    b: &mut [u64],
    line: &mut [u8; MOST_KEPT],
    at: &mut usize,
    c: u8,
    reply: &mut [u8; MOST_REPLY],
) -> io::Result<()>
    ensures { lent b.new line.new at.new reply.new
        ≡ fed (lent b.old line.old at.old reply.old) c }
{
    let fed = feed(b, line, *at, c, reply);
    *at = fed.at;
    say(stdout, reply, fed.length)
}

// Takes the bytes of one read, up to a reply that can't be written.
fn take_bytes(
    stdout: Stdout,
    b: &mut [u64],
    line: &mut [u8; MOST_KEPT],
    at: &mut usize,
    input: &[u8],
    reply: &mut [u8; MOST_REPLY],
) -> io::Result<()>
    ensures { TookOf (lent b.old line.old at.old reply.old)
        (lent b.new line.new at.new reply.new) input.now result }
{
    for c in input {
        take_byte(stdout, b, line, at, *c, reply)?;
    }
    Ok(())
}

// At the end of the input: a line begun has no 0a.
#[tactic(auto, unfolding(lines::specs::Input::closed))]
fn finish(
    stdout: Stdout,
    b: &mut [u64],
    line: &mut [u8; MOST_KEPT],
    at: &mut usize,
    reply: &mut [u8; MOST_REPLY],
) -> io::Result<()>
    ensures { lent b.new line.new at.new reply.new
        ≡ closed (lent b.old line.old at.old reply.old) }
{
    let n = end(b, line, *at, reply);
    *at = 0;
    say(stdout, reply, n)
}

// One read of the input, and what it leads to. Answers whether more may come: not after the end of
// the input.
fn turn(
    mut stdin: Stdin,
    stdout: Stdout,
    b: &mut [u64],
    line: &mut [u8; MOST_KEPT],
    at: &mut usize,
    buf: &mut [u8],
    reply: &mut [u8; MOST_REPLY],
) -> io::Result<bool>
    ensures { TurnOf (lent b.old line.old at.old reply.old)
        (lent b.new line.new at.new reply.new) buf.new result }
{
    let n = stdin.read(buf)?;
    if n == 0 {
        finish(stdout, b, line, at, reply)?;
        return Ok(false);
    }
    take_bytes(stdout, b, line, at, &buf[..n], reply)?;
    Ok(true)
}

// Reads and answers, with no byte of a line kept at first, until the input ends, or a read or a
// write fails. A function ends, so that there is a last read: the 18,446,744,073,709,551,615th.
fn serve(
    stdin: Stdin,
    stdout: Stdout,
    b: &mut [u64],
    line: &mut [u8; MOST_KEPT],
    at: &mut usize,
    buf: &mut [u8],
    reply: &mut [u8; MOST_REPLY],
) -> io::Result<()>
    ensures { ServedBy (lent b.old line.old 0 reply.old)
        (lent b.new line.new at.new reply.new) }
{
    *at = 0;
    for _ in 0..u64::MAX {
        if !turn(stdin, stdout, b, line, at, buf, reply)? {
            break;
        }
    }
    Ok(())
}

fn main(rt: HostRuntime) {
    let mut b = [0u64; layout::NEEDED];
    let mut line = [0u8; MOST_KEPT];
    let mut at = 0;
    let mut reply = [0u8; MOST_REPLY];
    let mut buf = [0u8; 4096];
    // A read or a write that fails ends the program as the end of the input does.
    let _ = serve(
        rt.stdin(),
        rt.stdout(),
        &mut b,
        &mut line,
        &mut at,
        &mut buf,
        &mut reply,
    );
}
