// Whole entries, by value: an item's latest committed write, what a client last saw of an item (its
// view), and the first reply that a fast read keeps of an item.
ghost use Rattle.std.specs.Prelude.{◌≡◌, ◌+◌, ◌≤◌, ◌<◌, get_or, set};
ghost use Rattle.layout.specs.Layout.{needed};
ghost use Rattle.layout.specs.Decode.{latest_in, view_in, first_in};
ghost use Rattle.layout.specs.Store.{store_latest, store_view, store_first};

use crate::{ENTRY_WORDS, FIRSTS, LATEST, MOST_ITEMS, VIEWS, put_word_in, word_in};
use protocol::Entry;

// The entry at place `i` of the section that starts at `base`.
fn entry_at(b: &[u64], base: u64, i: u64) -> Entry
    requires { (base < needed) × (i + 1 < needed) }
    ensures { result ≡ record {
      stamp = get_or b.now (base + i) 0;
      set = get_or
          b.now (base + (i + 1)) 0;
    } }
{
    Entry {
        stamp: word_in(b, base, i),
        set: word_in(b, base, i + 1),
    }
}

fn put_entry_at(b: &mut [u64], base: u64, i: u64, e: Entry)
    requires { (base < needed) × (i + 1 < needed) }
    ensures { b.new ≡ set (set b.old (base + i) e.stamp)
        (base + (i + 1)) e.set }
{
    put_word_in(b, base, i, e.stamp);
    put_word_in(b, base, i + 1, e.set);
}

// The latest of item `k`.
pub fn latest(b: &[u64], k: u64) -> Entry
    requires { k < 64 }
    ensures { result ≡ latest_in b.now k }
{
    entry_at(b, LATEST, ENTRY_WORDS * k)
}

pub fn put_latest(b: &mut [u64], k: u64, e: Entry)
    requires { k < 64 }
    ensures { b.new ≡ store_latest b.old k e }
{
    put_entry_at(b, LATEST, ENTRY_WORDS * k, e);
}

// The entry of item `k` in the view of client `d`.
pub fn view(b: &[u64], d: u64, k: u64) -> Entry
    requires { (1 ≤ d) × (d ≤ 8) × (k < 64) }
    ensures { result ≡ view_in b.now d k }
{
    entry_at(
        b,
        VIEWS,
        ENTRY_WORDS * MOST_ITEMS * (d - 1) + ENTRY_WORDS * k,
    )
}

pub fn put_view(b: &mut [u64], d: u64, k: u64, e: Entry)
    requires { (1 ≤ d) × (d ≤ 8) × (k < 64) }
    ensures { b.new ≡ store_view b.old d k e }
{
    put_entry_at(
        b,
        VIEWS,
        ENTRY_WORDS * MOST_ITEMS * (d - 1) + ENTRY_WORDS * k,
        e,
    );
}

// The first reply of item `k` that client `d` keeps.
pub fn first(b: &[u64], d: u64, k: u64) -> Entry
    requires { (1 ≤ d) × (d ≤ 8) × (k < 64) }
    ensures { result ≡ first_in b.now d k }
{
    entry_at(
        b,
        FIRSTS,
        ENTRY_WORDS * MOST_ITEMS * (d - 1) + ENTRY_WORDS * k,
    )
}

pub fn put_first(b: &mut [u64], d: u64, k: u64, e: Entry)
    requires { (1 ≤ d) × (d ≤ 8) × (k < 64) }
    ensures { b.new ≡ store_first b.old d k e }
{
    put_entry_at(
        b,
        FIRSTS,
        ENTRY_WORDS * MOST_ITEMS * (d - 1) + ENTRY_WORDS * k,
        e,
    );
}
