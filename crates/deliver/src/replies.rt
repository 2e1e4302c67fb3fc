// Prepared and got replies and first replies: each strikes its item from those awaited, and the
// last one ends the transaction, or the first part of a fast read.
ghost use Rattle.std.specs.Prelude.{◌≡◌, ◌≤◌, ◌<◌, length};
ghost use Rattle.protocol.specs.Tables.{writer_of};
ghost use Rattle.layout.specs.Layout.{needed};
ghost use Rattle.deliver.specs.Deliver.{written_delivered, mixed_prepared, prepared_delivered};
ghost use Rattle.deliver.specs.Deliver.{kept_answer, read_delivered, mixed_got, got_delivered};
ghost use Rattle.deliver.specs.Deliver.{kept_first, first_delivered};

use client_fields::{
    awaited, mode, put_awaited, put_value, put_write_awaited, value, write_awaited,
};
use ends::mixed::mixed_end;
use ends::read::read_end;
use ends::write::write_end;
use itemset::remove;
use layout::MIXING;
use layout::entry::{put_first, put_view, view};
use layout::values::with_answer;
use protocol::{Entry, Version};
use second_part::second_part;

// The prepared reply for `item`, to the client of this stamp, which writes.
fn written(b: &mut [u64], partitions: u64, items: u64, item: u64, stamp: u64)
    requires { (1 ≤ partitions) × (items ≤ 64) × (1 ≤ writer_of stamp) × (writer_of stamp ≤ 8) }
    ensures { b.new ≡ written_delivered b.old partitions items
        item stamp }
{
    let d = stamp % 16;
    let rest = remove(awaited(b, d), item);
    if rest == 0 {
        write_end(b, partitions, items, d, stamp);
    } else {
        put_awaited(b, d, rest);
    }
}

// That to client `d`, in a mixed transaction.
fn mixed_prepared(b: &mut [u64], partitions: u64, items: u64, d: u64, item: u64)
    requires { (1 ≤ partitions) × (items ≤ 64) × (1 ≤ d) × (d ≤ 8) }
    ensures { b.new ≡ mixed_prepared b.old partitions items d item }
{
    let gots = awaited(b, d);
    let rest = remove(write_awaited(b, d), item);
    if (gots == 0) & (rest == 0) {
        mixed_end(b, partitions, items, d);
    } else {
        put_write_awaited(b, d, rest);
    }
}

// The prepared reply for `item`, to the client of this stamp.
pub fn prepared(b: &mut [u64], partitions: u64, items: u64, item: u64, stamp: u64)
    requires { (1 ≤ partitions) × (items ≤ 64) × (1 ≤ writer_of stamp) × (writer_of stamp ≤ 8) }
    ensures { b.new ≡ prepared_delivered b.old partitions items
        item stamp }
{
    if mode(b, stamp % 16) == MIXING {
        mixed_prepared(b, partitions, items, stamp % 16, item);
    } else {
        written(b, partitions, items, item, stamp);
    }
}

// The version is the answer for its item, and the item's view entry becomes the latest of itself,
// the reply's latest and the version.
fn answer(b: &mut [u64], d: u64, v: Version, latest: Entry)
    requires { (1 ≤ d) × (d ≤ 8) × (v.item < 64) }
    ensures { b.new ≡ kept_answer b.old d v latest }
{
    let entry = view(b, d, v.item).offered(v, latest);
    put_view(b, d, v.item, entry);
    let mixed = mode(b, d) == MIXING;
    let word = with_answer(mixed, value(b, d, v.item), v.value);
    put_value(b, d, v.item, word);
}

// The got reply to client `d`, which reads.
fn read_got(b: &mut [u64], items: u64, d: u64, v: Version, latest: Entry)
    requires { (items ≤ 64) × (1 ≤ d) × (d ≤ 8) × (v.item < 64) }
    ensures { b.new ≡ read_delivered b.old items d v latest }
{
    let rest = remove(awaited(b, d), v.item);
    answer(b, d, v, latest);
    if rest == 0 {
        read_end(b, items, d);
    } else {
        put_awaited(b, d, rest);
    }
}

// That to client `d` in a mixed transaction.
fn mixed_got(b: &mut [u64], partitions: u64, items: u64, d: u64, v: Version, latest: Entry)
    requires { (1 ≤ partitions) × (items ≤ 64) × (1 ≤ d) × (d ≤ 8) × (v.item < 64) }
    ensures { b.new ≡ mixed_got b.old partitions items d v latest }
{
    let rest = remove(awaited(b, d), v.item);
    let replies = write_awaited(b, d);
    answer(b, d, v, latest);
    if (rest == 0) & (replies == 0) {
        mixed_end(b, partitions, items, d);
    } else {
        put_awaited(b, d, rest);
    }
}

// The got reply to client `d`.
pub fn got(b: &mut [u64], partitions: u64, items: u64, d: u64, v: Version, latest: Entry)
    requires { (1 ≤ partitions) × (items ≤ 64) × (1 ≤ d) × (d ≤ 8) × (v.item < 64) }
    ensures { b.new ≡ got_delivered b.old partitions items d v latest }
{
    if mode(b, d) == MIXING {
        mixed_got(b, partitions, items, d, v, latest);
    } else {
        read_got(b, items, d, v, latest);
    }
}

// The version is the answer so far, and its stamp and set are kept.
fn keep_first(b: &mut [u64], d: u64, v: Version, latest: Entry)
    requires { (1 ≤ d) × (d ≤ 8) × (v.item < 64) }
    ensures { b.new ≡ kept_first b.old d v latest }
{
    answer(b, d, v, latest);
    put_first(
        b,
        d,
        v.item,
        Entry {
            stamp: v.stamp,
            set: v.set,
        },
    );
}

// The first reply to client `d` (document 02, P7).
pub fn first_reply(b: &mut [u64], items: u64, d: u64, v: Version, latest: Entry)
    requires { (items ≤ 64) × (1 ≤ d) × (d ≤ 8) × (v.item < 64) × (needed ≤ length b.old) }
    ensures { b.new ≡ first_delivered b.old items d v latest }
{
    let rest = remove(awaited(b, d), v.item);
    keep_first(b, d, v, latest);
    if rest == 0 {
        second_part(b, items, d);
    } else {
        put_awaited(b, d, rest);
    }
}
