// The end of a write: the view takes it, item by item, the last ended transaction takes its values
// and its stamp, and one commit joins for each partition that it touched.
ghost use Rattle.std.specs.Prelude.{◌≡◌, ◌≤◌, ◌<◌};
ghost use Rattle.basics.specs.Fold.{up_to};
ghost use Rattle.ends.specs.Ends.{see_item, keep_value, touch_item, touched, send_commit};
ghost use Rattle.ends.specs.Ends.{write_kept, write_ended};

use crate::end;
use client_fields::{put_last_stamp, put_last_value, set_of, value};
use itemset::{has, insert};
use layout::entry::{put_view, view};
use messages::send;
use protocol::kind::WRITE;
use protocol::{Entry, Message};

// The view entry of item `k` of set `s` becomes the later of itself and this write.
fn see_item(b: &mut [u64], d: u64, s: u64, stamp: u64, k: u64)
    requires { (1 ≤ d) × (d ≤ 8) × (k < 64) }
    ensures { b.new ≡ see_item d s stamp b.old k }
{
    if has(s, k) {
        let entry = view(b, d, k).later(Entry { stamp, set: s });
        put_view(b, d, k, entry);
    }
}

#[tactic(auto, unfolding(basics::specs::Fold::up_to))]
pub fn see(b: &mut [u64], items: u64, d: u64, s: u64, stamp: u64)
    requires { (items ≤ 64) × (1 ≤ d) × (d ≤ 8) }
    ensures { b.new ≡ up_to (see_item d s stamp) b.old items }
{
    for k in 0..items {
        see_item(b, d, s, stamp, k);
    }
}

// The last ended transaction takes the value of item `k` of set `s`.
fn keep_value(b: &mut [u64], d: u64, s: u64, k: u64)
    requires { (1 ≤ d) × (d ≤ 8) × (k < 64) }
    ensures { b.new ≡ keep_value d s b.old k }
{
    if has(s, k) {
        let written = value(b, d, k);
        put_last_value(b, d, k, written);
    }
}

#[tactic(auto, unfolding(basics::specs::Fold::up_to))]
pub fn keep_values(b: &mut [u64], items: u64, d: u64, s: u64)
    requires { (items ≤ 64) × (1 ≤ d) × (d ≤ 8) }
    ensures { b.new ≡ up_to (keep_value d s) b.old items }
{
    for k in 0..items {
        keep_value(b, d, s, k);
    }
}

// The set `ps` of partitions with that of item `k`, if it is in set `s`.
fn touch_item(partitions: u64, s: u64, ps: u64, k: u64) -> u64
    requires { 1 ≤ partitions }
    ensures { result ≡ touch_item partitions s ps k }
{
    if has(s, k) {
        insert(ps, k % partitions)
    } else {
        ps
    }
}

// The partitions of the items of set `s`, as a set.
#[tactic(auto, unfolding(crate::specs::Ends::touched, basics::specs::Fold::up_to))]
pub fn touched(partitions: u64, items: u64, s: u64) -> u64
    requires { 1 ≤ partitions }
    ensures { result ≡ touched partitions s items }
{
    let mut ps = 0;
    for k in 0..items {
        ps = touch_item(partitions, s, ps, k);
    }
    ps
}

// A commit to partition `p` joins, if it is one of `ps`.
fn send_commit(b: &mut [u64], ps: u64, stamp: u64, p: u64)
    ensures { b.new ≡ send_commit ps stamp b.old p }
{
    if has(ps, p) {
        send(
            b,
            Message::Commit {
                partition: p,
                stamp,
            },
        );
    }
}

#[tactic(auto, unfolding(basics::specs::Fold::up_to))]
pub fn send_commits(b: &mut [u64], partitions: u64, ps: u64, stamp: u64)
    ensures { b.new ≡ up_to (send_commit ps stamp) b.old partitions }
{
    for p in 0..partitions {
        send_commit(b, ps, stamp, p);
    }
}

// What the client itself keeps of its write.
#[tactic(auto, unfolding(crate::specs::Ends::write_kept))]
fn write_kept(b: &mut [u64], items: u64, d: u64, s: u64, stamp: u64)
    requires { (items ≤ 64) × (1 ≤ d) × (d ≤ 8) }
    ensures { b.new ≡ write_kept b.old items d s stamp }
{
    see(b, items, d, s, stamp);
    keep_values(b, items, d, s);
    end(b, d, WRITE, s);
    put_last_stamp(b, d, stamp);
}

// The write of client `d` with this stamp ends.
#[tactic(auto, unfolding(crate::specs::Ends::write_ended))]
pub fn write_end(b: &mut [u64], partitions: u64, items: u64, d: u64, stamp: u64)
    requires { (1 ≤ partitions) × (items ≤ 64) × (1 ≤ d) × (d ≤ 8) }
    ensures { b.new ≡ write_ended b.old partitions items d stamp }
{
    let s = set_of(b, d);
    let ps = touched(partitions, items, s);
    write_kept(b, items, d, s, stamp);
    send_commits(b, partitions, ps, stamp);
}
