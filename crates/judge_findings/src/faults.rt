// The three findings at one item that a read shows, each a search over the writes of the log
// (document 01: findings).
ghost use Rattle.std.specs.Prelude.{cond, not, ◌≡◌, ◌+◌, ◌*◌, ◌≤◌, ◌<◌, eqb, length, get_or};
ghost use Rattle.judge_frames.specs.Cut.{frame_in};
ghost use Rattle.findings.specs.Findings.{wrote};
ghost use Rattle.judge_findings.specs.Tests.{behind_at, behind_by, fractures_by, misses_by};
ghost use Rattle.judge_findings.specs.Tests.{faults_by};
ghost use Rattle.judge_findings.specs.Writes.{line_of, stamp_of, items_of, Entry, Entries};
ghost use Rattle.judge_findings.specs.Writes.{Within};
ghost use Rattle.log_format.specs.Log.{shown as shown_items};
ghost use Rattle.log_format.specs.Some.{some_from};

use crate::writes::{Writes, items_of, line_of, stamp_of};
use judge_frames::fields::{reads_own, shown, shown_stamp, written_value};

// Write `w` is of the item, with that stamp and value.
#[tactic(auto, unfolding(findings::specs::Findings::wrote))]
fn wrote_at(writes: Writes, w: usize, item: u64, stamp: u64, value: u64) -> bool
    requires { (3 * w + 2 < length writes.table.now)
        × Entry writes.frames.bytes.now writes.frames.starts.now writes.table.now w }
    ensures { result ≡ wrote item stamp value
        (frame_in writes.entry.frames.bytes.now writes.entry.frames.starts.now
        (line_of writes.entry.table.now w)) }
{
    if stamp_of(writes.table, w) != stamp {
        return false;
    }
    let f = writes.frames.frame(line_of(writes.table, w));
    let items = items_of(writes.table, w);
    // Stays in this order: with the items first a log of many small writes takes a tenth longer.
    written_value(f, items, item) == value && itemset::has(items, item)
}

// Some write is.
fn is_written(writes: Writes, item: u64, stamp: u64, value: u64) -> bool
    requires { Entries writes.frames.bytes.now writes.frames.starts.now
        writes.table.now writes.count }
    ensures { result ≡ some_from writes.entry.count 0 (λ w. wrote item stamp value
        (frame_in writes.entry.frames.bytes.now writes.entry.frames.starts.now
        (line_of writes.entry.table.now w))) }
{
    // Stays a `for`: with `any` this search takes twice as many instructions.
    for w in 0..writes.count {
        if wrote_at(writes, w, item, stamp, value) {
            return true;
        }
    }
    false
}

// Finding 1, at an item shown with that stamp and value.
pub fn is_unwritten(writes: Writes, item: u64, stamp: u64, value: u64) -> bool
    requires { Entries writes.frames.bytes.now writes.frames.starts.now
        writes.table.now writes.count }
    ensures { result ≡ cond (eqb stamp 0) (not (eqb value 0))
        (not (some_from writes.entry.count 0 (λ w. wrote item stamp value
        (frame_in writes.entry.frames.bytes.now writes.entry.frames.starts.now
        (line_of writes.entry.table.now w))))) }
{
    if stamp == 0 {
        value != 0
    } else {
        !is_written(writes, item, stamp, value)
    }
}

// `r`, which shows `items`, shows the item, one of those written, with an earlier stamp than
// `stamp`.
#[tactic(auto, unfolding(crate::specs::Tests::behind_at))]
fn behind_at(r: &[u8], items: u64, written: u64, stamp: u64, item: u64) -> bool
    requires { items ≡ shown_items r.now }
    ensures { result ≡ behind_at r.now items written stamp item }
{
    // Stays `&` between the sets: with `&&`, and without `next` in `number`, a log of writes of 64
    // items takes a tenth longer.
    itemset::has(items, item) & itemset::has(written, item) && shown_stamp(r, items, item) < stamp
}

// `r` shows one of the items written with an earlier stamp than `stamp`.
fn behind(r: &[u8], written: u64, stamp: u64) -> bool
    ensures { result ≡ behind_by r.now written stamp }
{
    let items = shown(r);
    (0..64).any(|k| behind_at(r, items, written, stamp, k))
}

// Write `w` is of the item and has the stamp shown, and `r` shows another of its items with an
// earlier one.
#[tactic(auto, unfolding(crate::specs::Tests::fractures_by))]
fn fractures_at(writes: &[u64], w: usize, r: &[u8], item: u64, seen: u64) -> bool
    requires { 3 * w + 2 < length writes.now }
    ensures { result ≡ fractures_by r.now (items_of writes.now w)
        (stamp_of writes.now w) item seen }
{
    let written = items_of(writes, w);
    let stamp = stamp_of(writes, w);
    // Stays `&`: with `&&` a log of writes of 64 items takes a fifth longer.
    stamp == seen && itemset::has(written, item) & behind(r, written, stamp)
}

// Write `w` counts as that client's own, is of the item and is later than the stamp shown.
#[tactic(auto, unfolding(crate::specs::Tests::misses_by))]
fn misses_at(writes: &[u64], owners: &[u64], w: usize, of: u64, item: u64, seen: u64) -> bool
    requires { (3 * w + 2 < length writes.now)
        × (line_of writes.now w < length owners.now) }
    ensures { result ≡ misses_by
        (get_or owners.now (line_of writes.now w) 0)
        (items_of writes.now w) (stamp_of writes.now w) of item seen }
{
    itemset::has(owners[line_of(writes, w)], of)
        & itemset::has(items_of(writes, w), item)
        & (seen < stamp_of(writes, w))
}

// Write `w` has the read `r` of that client at fault at the item: fractured, or an own write missed
// that it was to see. Most writes aren't of the item.
#[tactic(auto, using(crate::proofs::Tests::faults_not), unfolding(crate::specs::Tests::faults_by))]
pub fn faults_at(
    writes: &[u64],
    owners: &[u64],
    w: usize,
    r: &[u8],
    of: u64,
    item: u64,
    seen: u64,
) -> bool
    requires { (3 * w + 2 < length writes.now)
        × (line_of writes.now w < length owners.now) }
    ensures { result ≡ faults_by r.now
        (get_or owners.now (line_of writes.now w) 0)
        (items_of writes.now w) (stamp_of writes.now w) of item seen }
{
    itemset::has(items_of(writes, w), item)
        && (fractures_at(writes, w, r, item, seen)
            | (reads_own(r) & misses_at(writes, owners, w, of, item, seen)))
}

// Finding 2, at an item shown with that stamp.
pub fn is_fractured(writes: Writes, r: &[u8], item: u64, seen: u64) -> bool
    requires { 3 * writes.count ≤ length writes.table.now }
    ensures { result ≡ some_from writes.entry.count 0 (λ w. fractures_by r.now
        (items_of writes.entry.table.now w) (stamp_of writes.entry.table.now w) item seen) }
{
    (0..writes.count).any(|w| fractures_at(writes.table, w, r, item, seen))
}

// Finding 3, at an item shown with that stamp to that client.
pub fn is_missed(writes: Writes, owners: &[u64], of: u64, item: u64, seen: u64) -> bool
    requires { (3 * writes.count ≤ length writes.table.now)
        × Within writes.table.now writes.count (length owners.now) }
    ensures { result ≡ some_from writes.entry.count 0 (λ w. misses_by
        (get_or owners.now (line_of writes.entry.table.now w) 0)
        (items_of writes.entry.table.now w) (stamp_of writes.entry.table.now w) of item seen) }
{
    (0..writes.count).any(|w| misses_at(writes.table, owners, w, of, item, seen))
}
