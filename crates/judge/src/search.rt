// The first read at fault, and the lowest finding there (document 01: findings).
ghost use Rattle.std.specs.Prelude.{◌≡◌, ◌*◌, ◌≤◌, ◌<◌, length, unwrap_or, IfSome};
ghost use Rattle.judge_frames.specs.Cut.{frames_in};
ghost use Rattle.findings.specs.Findings.{findings, holds_at, lowest as lowest_of, fault_at};
ghost use Rattle.judge_findings.specs.Owned.{Owned};
ghost use Rattle.judge_findings.specs.Writes.{Entries, Within};
ghost use Rattle.judge.specs.Search.{finding_of, numbered, Table, faulted, item_faulted};
ghost use Rattle.log_format.specs.Log.{shown as shown_items};
ghost use Rattle.log_format.specs.Some.{some_from, first_from};

use judge_findings::faults::{faults_at, is_fractured, is_missed, is_unwritten};
use judge_findings::owners::pass_line;
use judge_findings::writes::Writes;
use judge_frames::fields::{client, reads_own, shown, shown_stamp, shown_value};

// The three findings at an item that a read shows, lowest first.
#[derive(Clone, Copy)]
pub enum Finding {
    Unwritten,
    Fractured,
    Missed,
}

// A finding's number in a verdict; 0 where there is none.
pub fn number_of(finding: Option<Finding>) -> u8
    ensures { result ≡ numbered finding }
{
    match finding {
        None => 0,
        Some(Finding::Unwritten) => 1,
        Some(Finding::Fractured) => 2,
        Some(Finding::Missed) => 3,
    }
}

// The first line at fault, counted from 0. The owners are then those at that line, or behind the
// last one. Stays a labelled search that is left from the inside: document 01, 'Our forms for each
// place'.
pub fn first_fault(writes: Writes, owners: &mut [u64], n: usize) -> Option<usize>
    requires { Table writes.frames.bytes.now writes.frames.starts.now n
        writes.table.now writes.count
        × Owned writes.frames.bytes.now writes.frames.starts.now n 0 owners.old }
    ensures value { unwrap_or result n ≡ first_from n 0 (fault_at
        (frames_in writes.entry.frames.bytes.now writes.entry.frames.starts.now n)) }
    ensures inside { IfSome result (λ line. line < n) }
    ensures owned { Owned writes.entry.frames.bytes.now writes.entry.frames.starts.now n
        (unwrap_or result n) owners.new }
{
    let mut found = None;
    'lines: for line in 0..n {
        let read = writes.frames.frame(line);
        let items = shown(read);
        let of = client(read);
        'shown: for item in 0..64 {
            if !itemset::has(items, item) {
                continue 'shown;
            }
            let stamp = shown_stamp(read, items, item);
            let value = shown_value(read, items, item);
            if is_unwritten(writes, item, stamp, value) {
                found = Some(line);
                break 'lines;
            }
            'writes: for w in 0..writes.count {
                if faults_at(writes.table, owners, w, read, of, item, stamp) {
                    found = Some(line);
                    break 'lines;
                }
            }
        }
        pass_line(owners, line, read);
    }
    found
}

// The finding holds at an item that line `line` shows.
fn holds(finding: Finding, writes: Writes, owners: &[u64], n: usize, line: usize, item: u64) -> bool
    requires { Table writes.frames.bytes.now writes.frames.starts.now n
        writes.table.now writes.count
        × Owned writes.frames.bytes.now writes.frames.starts.now n line owners.now × (line < n) }
    ensures { result ≡ finding_of finding
        (frames_in writes.entry.frames.bytes.now writes.entry.frames.starts.now n) line item }
{
    let r = writes.frames.frame(line);
    let items = shown(r);
    let stamp = shown_stamp(r, items, item);
    match finding {
        Finding::Unwritten => {
            let value = shown_value(r, items, item);
            is_unwritten(writes, item, stamp, value)
        }
        Finding::Fractured => is_fractured(writes, r, item, stamp),
        Finding::Missed => { reads_own(r) && is_missed(writes, owners, client(r), item, stamp) }
    }
}

// Line `line` shows an item at which the finding holds.
fn holds_at(finding: Finding, writes: Writes, owners: &[u64], n: usize, line: usize) -> bool
    requires { Table writes.frames.bytes.now writes.frames.starts.now n
        writes.table.now writes.count
        × Owned writes.frames.bytes.now writes.frames.starts.now n line owners.now × (line < n) }
    ensures { result ≡ holds_at (finding_of finding)
        (frames_in writes.entry.frames.bytes.now writes.entry.frames.starts.now n) line }
{
    let items = shown(writes.frames.frame(line));
    (0..64).any(|item| itemset::has(items, item) && holds(finding, writes, owners, n, line, item))
}

// The lowest finding at line `line`.
#[tactic(auto, unfolding(findings::specs::Findings::lowest))]
pub fn lowest(writes: Writes, owners: &[u64], n: usize, line: usize) -> Option<Finding>
    requires { Table writes.frames.bytes.now writes.frames.starts.now n
        writes.table.now writes.count
        × Owned writes.frames.bytes.now writes.frames.starts.now n line owners.now × (line < n) }
    ensures { numbered result ≡ lowest_of findings
        (frames_in writes.entry.frames.bytes.now writes.entry.frames.starts.now n) line }
{
    if holds_at(Finding::Unwritten, writes, owners, n, line) {
        return Some(Finding::Unwritten);
    }
    if holds_at(Finding::Fractured, writes, owners, n, line) {
        return Some(Finding::Fractured);
    }
    if holds_at(Finding::Missed, writes, owners, n, line) {
        return Some(Finding::Missed);
    }
    None
}
