// The judge of a log (document 01: findings). It knows the published definitions and nothing of the
// store.

#![tactic(auto)]

mod search;

ghost use Rattle.std.specs.Prelude.{◌≡◌, ◌≤◌, false};
ghost use Rattle.judge_frames.specs.Cut.{frames_in};
ghost use Rattle.log_format.specs.Log.{too_long, frames_of};
ghost use Rattle.judge_scan.specs.Scan.{Scanning};
ghost use Rattle.findings.specs.Findings.{judged, checked, verdict};
ghost use Rattle.judge_findings.specs.Owned.{AllSmall};
ghost use Rattle.judge.specs.Search.{Table};
ghost use Rattle.findings.specs.Published.{Says};

use crate::search::{first_fault, lowest, number_of};
use findings::Verdict;
use judge_findings::writes::{Writes, gather};
use judge_frames::cut::Frames;
use judge_limits::too_long;
use judge_scan::scan;

// Well-formed frames, their writes gathered: the first line at fault and there the lowest finding.
fn judge_gathered(writes: Writes, n: usize) -> Verdict
    requires { Table writes.frames.bytes.now writes.frames.starts.now n
        writes.table.now writes.count }
    ensures { result ≡ judged
        (frames_in writes.entry.frames.bytes.now writes.entry.frames.starts.now n) }
{
    let mut owners = [0u64; 256];
    let fault = first_fault(writes, &mut owners, n);
    match fault {
        Some(line) => Verdict::Judged {
            finding: number_of(lowest(writes, &owners, n, line)),
            line: (line + 1) as u16,
        },
        None => Verdict::Judged {
            finding: 0,
            line: 0,
        },
    }
}

// Well-formed frames.
fn judge_lines(frames: Frames, n: usize) -> Verdict
    requires { (n ≤ 256) × AllSmall frames.bytes.now frames.starts.now n }
    ensures { result ≡ judged (frames_in frames.entry.bytes.now frames.entry.starts.now n) }
{
    let mut table = [0u64; 768];
    let count = gather(frames, n, &mut table);
    judge_gathered(
        Writes {
            frames,
            table: &table,
            count,
        },
        n,
    )
}

// A log within the limits, decoded into `bytes` with its lines' starts in `starts`.
fn judge_into(log: &[u8], bytes: &mut [u8], starts: &mut [usize]) -> Verdict
    requires { Scanning log.now 0 bytes.old starts.old 0 }
    ensures { result ≡ checked (frames_of log.now) }
{
    match scan(log, bytes, starts) {
        Ok(n) => judge_lines(Frames { bytes, starts }, n),
        Err(bad) => Verdict::Malformed {
            line: (bad.line + 1) as u16,
        },
    }
}

// A log within the limits.
fn judge_within(log: &[u8]) -> Verdict
    requires { too_long log.now ≡ false }
    ensures { result ≡ checked (frames_of log.now) }
{
    let mut bytes = [0u8; 16384];
    let mut starts = [0usize; 258];
    judge_into(log, &mut bytes, &mut starts)
}

// The verdict on a log, whatever its bytes.
pub fn judge(log: &[u8]) -> Verdict
    ensures value { result ≡ verdict log.now }
    ensures says { Says log.now result }
{
    if too_long(log) {
        Verdict::TooLong
    } else {
        judge_within(log)
    }
}
