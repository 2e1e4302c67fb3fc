// The second part of a fast read (document 02, P7): of each item of the set the latest stamp that a
// first reply shows, and a get for each item whose own first reply is older.

#![tactic(auto)]

ghost use Rattle.std.specs.Prelude.{cond, ◌&&◌, ◌≡◌, ◌≤◌, ◌<◌, ltb, length, get_or};
ghost use Rattle.basics.specs.Fold.{up_to};
ghost use Rattle.itemset.specs.Set.{has, insert};
ghost use Rattle.layout.specs.Layout.{most_items, needed};
ghost use Rattle.layout.specs.Decode.{first_in};
ghost use Rattle.second_part.specs.SecondPart.{older_than, ask_again, fetched, second_begun};

use client_fields::{put_asked, put_awaited, put_mode, set_of};
use ends::read::read_end;
use itemset::{has, insert};
use layout::entry::first;
use layout::{ENTRY_WORDS, FIRSTS, MOST_ITEMS, SECOND_PART};
use start_read::{choose, get_items};

// A stamp for each item.
const STAMPS: usize = MOST_ITEMS as usize;

// Item `k` of set `s`: the stamp asked for.
fn ask_item(b: &mut [u64], d: u64, s: u64, stamps: &[u64], k: u64)
    requires { (1 ≤ d) × (d ≤ 8) × (k < 64) × (length stamps.now ≡ most_items) }
    ensures { b.new ≡ ask_again d s (λ j. get_or stamps.now j 0)
        b.old k }
{
    if has(s, k) {
        put_asked(b, d, k, stamps[k as usize]);
    }
}

#[tactic(auto, unfolding(basics::specs::Fold::up_to))]
fn ask_items(b: &mut [u64], d: u64, s: u64, stamps: &[u64], items: u64)
    requires { (1 ≤ d) × (d ≤ 8) × (items ≤ 64) × (length stamps.now ≡ most_items) }
    ensures { b.new ≡ up_to (ask_again d s (λ j. get_or stamps.now j 0))
        b.old items }
{
    for k in 0..items {
        ask_item(b, d, s, stamps, k);
    }
}

// The set `stale` with item `k`, if it is one of `s` and its first reply is older than this stamp.
fn stale_item(b: &[u64], d: u64, s: u64, stamp: u64, stale: u64, k: u64) -> u64
    requires { (1 ≤ d) × (d ≤ 8) × (k < 64) }
    ensures { result ≡ cond (has s k && ltb (first_in b.now d k).stamp stamp)
        (insert stale k) stale }
{
    let reply = first(b, d, k);
    if has(s, k) & (reply.stamp < stamp) {
        insert(stale, k)
    } else {
        stale
    }
}

// The items of set `s` whose first replies are older than these stamps.
#[tactic(auto, unfolding(crate::specs::SecondPart::older_than, itemset::specs::Set::set_of))]
fn stale_items(b: &[u64], d: u64, s: u64, stamps: &[u64], items: u64) -> u64
    requires { (1 ≤ d) × (d ≤ 8) × (items ≤ 64) × (length stamps.now ≡ most_items) }
    ensures { result ≡ older_than b.now d s
        (λ j. get_or stamps.now j 0) items }
{
    let mut stale = 0;
    for k in 0..items {
        stale = stale_item(b, d, s, stamps[k as usize], stale, k);
    }
    stale
}

// Client `d` fetches the items of `stale` again, and awaits them.
#[tactic(auto, unfolding(crate::specs::SecondPart::fetched))]
fn fetch(b: &mut [u64], items: u64, d: u64, stale: u64)
    requires { (items ≤ 64) × (1 ≤ d) × (d ≤ 8) }
    ensures { b.new ≡ fetched b.old items d stale }
{
    put_mode(b, d, SECOND_PART);
    put_awaited(b, d, stale);
    get_items(b, false, d, stale, items);
}

// Client `d`, whose first replies have all come, begins the second part of its fast read, or ends.
pub fn second_part(b: &mut [u64], items: u64, d: u64)
    requires { (items ≤ 64) × (1 ≤ d) × (d ≤ 8) × (needed ≤ length b.old) }
    ensures { b.new ≡ second_begun b.old items d }
{
    let s = set_of(b, d);
    let mut stamps = [0; STAMPS];
    choose(
        b,
        FIRSTS + ENTRY_WORDS * MOST_ITEMS * (d - 1),
        false,
        s,
        items,
        &mut stamps,
    );
    let stale = stale_items(b, d, s, &stamps, items);
    ask_items(b, d, s, &stamps, items);
    if stale == 0 {
        read_end(b, items, d);
    } else {
        fetch(b, items, d, stale);
    }
}
