// A table of the lines that write, gathered once, so that the searches visit those alone. A write
// has three words there: its place in the log, its stamp and its items.
ghost use Rattle.std.specs.Prelude.{cond, ◌≡◌, ◌+◌, ◌*◌, ◌≤◌, ◌<◌, eqb, length, set};
ghost use Rattle.judge_findings.specs.Writes.{line_of, stamp_of, items_of, Gathered};

use judge_frames::cut::Frames;
use judge_frames::fields::{written, written_stamp};

// The frames of a log, and its table of writes, of which there are `count`.
#[derive(Clone, Copy)]
pub struct Writes<'a> {
    pub frames: Frames<'a, 'a>,
    pub table: &'a [u64],
    pub count: usize,
}

// The place in the log of write `w`.
pub fn line_of(writes: &[u64], w: usize) -> usize
    requires { 3 * w + 2 < length writes.now }
    ensures { result ≡ line_of writes.now w }
{
    writes[3 * w] as usize
}

pub fn stamp_of(writes: &[u64], w: usize) -> u64
    requires { 3 * w + 2 < length writes.now }
    ensures { result ≡ stamp_of writes.now w }
{
    writes[3 * w + 1]
}

pub fn items_of(writes: &[u64], w: usize) -> u64
    requires { 3 * w + 2 < length writes.now }
    ensures { result ≡ items_of writes.now w }
{
    writes[3 * w + 2]
}

// Makes line `line` write `w`.
fn put(writes: &mut [u64], w: usize, line: u64, stamp: u64, items: u64)
    requires { 3 * w + 2 < length writes.old }
    ensures { writes.new ≡ set (set (set writes.old (3 * w) line)
        (3 * w + 1) stamp) (3 * w + 2) items }
{
    writes[3 * w] = line;
    writes[3 * w + 1] = stamp;
    writes[3 * w + 2] = items;
}

// How many writes there are with a line that wrote these items: one more, unless there are none.
fn counted(m: usize, items: u64) -> usize
    requires { m ≤ 256 }
    ensures { result ≡ cond (eqb items 0) m (m + 1) }
{
    if items == 0 { m } else { m + 1 }
}

// Gathers the writes of the first `n` lines, and tells how many there are. The place of a line that
// doesn't write is taken by the next line.
pub fn gather(frames: Frames, n: usize, writes: &mut [u64]) -> usize
    requires { (n ≤ 256) × (3 * n ≤ length writes.old) }
    ensures { Gathered frames.entry.bytes.now frames.entry.starts.now n writes.new result }
{
    let mut m = 0;
    for j in 0..n {
        let f = frames.frame(j);
        let items = written(f);
        put(writes, m, j as u64, written_stamp(f), items);
        m = counted(m, items);
    }
    m
}
