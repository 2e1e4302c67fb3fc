// The start of a write: the value of each item of the set, one stamp for all of them, and a prepare
// for each. The loops serve a mixed transaction's write part too.

#![tactic(auto)]

ghost use Rattle.std.specs.Prelude.{◌≡◌, ◌*◌, ◌^◌, ◌≤◌, ◌<◌, length};
ghost use Rattle.basics.specs.Fold.{up_to};
ghost use Rattle.itemset.specs.Set.{count};
ghost use Rattle.layout.specs.Layout.{needed, header, at, items_at};
ghost use Rattle.start.specs.Start.{greatest_on, value_item, send_prepare, write_started};

use client_fields::{put_count, put_stamp, put_value, value};
use hexadecimal::number_at;
use itemset::{has, least_from, rank};
use layout::WRITING;
use layout::values::{written_value, written_word};
use messages::send;
use protocol::{Message, Version};
use start::{greatest, put_busy};

// Item `k` of set `s` takes its four bytes as its value.
#[tactic(auto, using(itemset::proofs::Counts::rank_lt))]
fn keep_item(b: &mut [u64], mixed: bool, d: u64, s: u64, bytes: &[u8], k: u64)
    requires { (1 ≤ d) × (d ≤ 8) × (k < 64) × (4 * count s ≤ length bytes.now) }
    ensures { b.new ≡ value_item mixed d s bytes.now
        b.old k }
{
    if has(s, k) {
        let place = 4 * rank(s, k);
        let value = number_at(bytes, place as usize, 4) % 4294967296;
        put_value(b, d, k, written_word(mixed, value));
    }
}

// The values of set `s`, of a write or of a mixed transaction's write part.
//
// Stays a `while` from member to member, as `prepare_items` does: a `for` over the items, with the
// test, was tried, and takes three times as long at sets of up to 12.
pub fn keep_items(b: &mut [u64], mixed: bool, d: u64, s: u64, bytes: &[u8], items: u64)
    requires { (1 ≤ d) × (d ≤ 8) × (items ≤ 64) × (4 * count s ≤ length bytes.now) }
    ensures { b.new ≡ up_to (value_item mixed d s bytes.now)
        b.old items }
{
    let mut k = least_from(s, 0);
    while k < items {
        keep_item(b, mixed, d, s, bytes, k);
        k = least_from(s, k + 1);
    }
}

// The prepare of item `k` of set `s`, with the value kept for it, joins.
fn prepare_item(b: &mut [u64], mixed: bool, d: u64, s: u64, stamp: u64, k: u64)
    requires { (1 ≤ d) × (d ≤ 8) × (k < 64) }
    ensures { b.new ≡ send_prepare mixed d s stamp b.old k }
{
    if has(s, k) {
        let value = written_value(mixed, value(b, d, k));
        send(
            b,
            Message::Prepare(Version {
                item: k,
                value,
                stamp,
                set: s,
            }),
        );
    }
}

// A prepare for each item of set `s`, ascending; a `while` for the reason given at `keep_items`.
pub fn prepare_items(b: &mut [u64], mixed: bool, d: u64, s: u64, stamp: u64, items: u64)
    requires { (1 ≤ d) × (d ≤ 8) × (items ≤ 64) }
    ensures { b.new ≡ up_to (send_prepare mixed d s stamp) b.old items }
{
    let mut k = least_from(s, 0);
    while k < items {
        prepare_item(b, mixed, d, s, stamp, k);
        k = least_from(s, k + 1);
    }
}

// Client `d` starts a write of set `s` with these value bytes, four for each item, in a block with
// `items` items.
#[tactic(auto, unfolding(start::specs::Start::write_started))]
pub fn start_write(b: &mut [u64], d: u64, s: u64, bytes: &[u8], items: u64)
    requires { (1 ≤ d) × (d ≤ 8) × (items ≤ 64) × (items ≡ at b.old header items_at)
        × (greatest_on b.old d items < 2 ^ 32) × (needed ≤ length b.old)
        × (4 * count s ≤ length bytes.now) }
    ensures { b.new ≡ write_started b.old d s bytes.now }
{
    let number = greatest(b, d, items) + 1;
    let stamp = number * 16 + d;
    keep_items(b, false, d, s, bytes, items);
    put_busy(b, d, WRITING, s);
    put_count(b, d, number);
    put_stamp(b, d, stamp);
    prepare_items(b, false, d, s, stamp, items);
}
