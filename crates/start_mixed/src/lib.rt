// The start of a mixed transaction (document 02, P8): the stamps to ask for at the items of its
// read set, the values of the items of its write set, and the gets, then the prepares.

#![tactic(auto)]

ghost use Rattle.std.specs.Prelude.{◌≡◌, ◌*◌, ◌^◌, ◌≤◌, ◌<◌, length};
ghost use Rattle.itemset.specs.Set.{count};
ghost use Rattle.layout.specs.Layout.{needed, header, at, items_at};
ghost use Rattle.start.specs.Start.{greatest_on, busy_mixed, mixed_begun, mixed_started};

use client_fields::{put_count, put_stamp, put_write_awaited, put_write_set};
use layout::MIXING;
use start::{greatest, put_busy};
use start_read::{ask, get_items};
use start_write::{keep_items, prepare_items};

// Client `d` is busy with read set `r` and write set `s`, all of both awaited, and has its count
// and stamp.
fn put_mixed(b: &mut [u64], d: u64, r: u64, s: u64, count: u64, stamp: u64)
    requires { (1 ≤ d) × (d ≤ 8) }
    ensures { b.new ≡ busy_mixed b.old d r s count stamp }
{
    put_busy(b, d, MIXING, r);
    put_write_set(b, d, s);
    put_write_awaited(b, d, s);
    put_count(b, d, count);
    put_stamp(b, d, stamp);
}

// The gets of set `r` join, and then the prepares of set `s`.
#[tactic(auto, unfolding(start::specs::Start::mixed_begun))]
fn begin(b: &mut [u64], d: u64, r: u64, s: u64, stamp: u64, items: u64)
    requires { (1 ≤ d) × (d ≤ 8) × (items ≤ 64) }
    ensures { b.new ≡ mixed_begun b.old d r s stamp items }
{
    get_items(b, false, d, r, items);
    prepare_items(b, true, d, s, stamp, items);
}

// Client `d` starts a mixed transaction with read set `r`, and write set `s` with these value
// bytes, four for each item, in a block with `items` items.
#[tactic(auto, unfolding(start::specs::Start::mixed_started))]
pub fn start_mixed(b: &mut [u64], d: u64, r: u64, s: u64, bytes: &[u8], items: u64)
    requires { (1 ≤ d) × (d ≤ 8) × (items ≤ 64) × (items ≡ at b.old header items_at)
        × (greatest_on b.old d items < 2 ^ 32) × (needed ≤ length b.old)
        × (4 * count s ≤ length bytes.now) }
    ensures { b.new ≡ mixed_started b.old d r s bytes.now }
{
    let number = greatest(b, d, items) + 1;
    let stamp = number * 16 + d;
    ask(b, d, r, items);
    keep_items(b, true, d, s, bytes, items);
    put_mixed(b, d, r, s, number, stamp);
    begin(b, d, r, s, stamp, items);
}
