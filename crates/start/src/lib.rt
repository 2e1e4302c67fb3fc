// What the starts of reads, of writes and of mixed transactions on the block share (document 01:
// Steps): a client becomes busy, and looks at its view.
//
// Here, in the ends and in the hand-over a pass over the items is a `for` that calls a named step.
// They stay so: one generic pass would take the step as a closure, whose contract is longer than
// the two lines that it saves.

#![tactic(auto)]

ghost use Rattle.std.specs.Prelude.{◌≡◌, ◌≤◌, ◌<◌, length};
ghost use Rattle.layout.specs.Decode.{view_in};
ghost use Rattle.layout.specs.Layout.{needed};
ghost use Rattle.start.specs.Start.{busy, greatest_on};

use client_fields::{count, put_awaited, put_mode, put_set};
use layout::{ENTRY_WORDS, MOST_ITEMS, VIEWS};

// Client `d` is busy with the items of `s`, all of them awaited, in this mode.
pub fn put_busy(b: &mut [u64], d: u64, mode: u64, s: u64)
    requires { (1 ≤ d) × (d ≤ 8) }
    ensures { b.new ≡ busy b.old d mode s }
{
    put_mode(b, d, mode);
    put_set(b, d, s);
    put_awaited(b, d, s);
}

// The stamp of entry `i` in the view of client `d`, from a block that is long enough.
pub fn seen_stamp(b: &[u64], d: u64, i: u64) -> u64
    requires { (1 ≤ d) × (d ≤ 8) × (i < 64) × (needed ≤ length b.now) }
    ensures { result ≡ (view_in b.now d i).stamp }
{
    let place = ENTRY_WORDS * MOST_ITEMS * (d - 1) + ENTRY_WORDS * i;
    let stamp = (VIEWS + place) as usize;
    b[stamp]
}

// The greatest number among the count of client `d` and its view of `items` items (document 02,
// P1).
#[tactic(auto, unfolding(crate::specs::Start::greatest_on, protocol::specs::Steps::greatest_in))]
pub fn greatest(b: &[u64], d: u64, items: u64) -> u64
    requires { (1 ≤ d) × (d ≤ 8) × (items ≤ 64) × (needed ≤ length b.now) }
    ensures { result ≡ greatest_on b.now d items }
{
    let mut most = count(b, d);
    for k in 0..items {
        let stamp = seen_stamp(b, d, k);
        most = most.max(stamp / 16);
    }
    most
}
