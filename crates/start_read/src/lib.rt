// The starts of a read and of a fast read: the stamp to ask for at each item of the set, and a get
// for each.

#![tactic(auto)]

ghost use Rattle.std.specs.Prelude.{cond, ◌≡◌, ◌+◌, ◌≤◌, ◌<◌, length, get_or, replicate};
ghost use Rattle.basics.specs.Fold.{up_to};
ghost use Rattle.protocol.specs.declared.Message.TheVariants.{Get, FirstGet};
ghost use Rattle.layout.specs.Layout.{most_items, needed, header, at, items_at};
ghost use Rattle.start.specs.Start.{ask_for, ask_from, ask_item, send_get, begun, read_started};
ghost use Rattle.start.specs.Start.{fast_read_started};
ghost use Rattle.start.specs.Choice.{entry_word, entries_from, ChosenAfter, raised, unraised};

use client_fields::{asked, put_asked, put_value};
use itemset::{has, insert, least_from};
use layout::{ENTRY_WORDS, FIRST_PART, MOST_ITEMS, READING, VIEWS};
use messages::send;
use protocol::{Entry, Message};
use start::put_busy;

// A stamp for each item.
const STAMPS: usize = MOST_ITEMS as usize;

// Entries that were looked at are kept in so many slots, by number and client of their stamps.
const SLOTS: usize = 8;

// Word `f` of entry `i` in the row that starts at place `from` of the block; of all entries, or of
// those of the items in `s` alone.
fn entry_word(b: &[u64], from: u64, all: bool, s: u64, i: u64, f: u64) -> u64
    requires { (from + 128 ≤ needed) × (i < 64) × (f < 2) × (needed ≤ length b.now) }
    ensures { result ≡ entry_word b.now from all s i f }
{
    if all | has(s, i) {
        let place = (from + (ENTRY_WORDS * i + f)) as usize;
        b[place]
    } else {
        0
    }
}

// The stamps of the items in `set` become the later of themselves and `stamp`.
//
// Stays a walk over the bits of a word: a `for` over the 64 items, with the test, was tried, and
// takes eight times as long. A read comes here for each entry of its view.
fn raise(stamps: &mut [u64], set: u64, stamp: u64)
    requires { length stamps.old ≡ most_items }
    ensures { stamps.new ≡ raised set stamp stamps.old }
{
    let mut left = set;
    while left != 0 {
        let k = u64::trailing_zeros(left) as usize;
        stamps[k] = stamps[k].max(stamp);
        left = left & (left - 1);
    }
}

// What an entry has left to raise of the items that it reached: none where an entry before it, of
// which the last stamp and the items were kept, had the same stamp and reached the same.
fn unraised(stamp: u64, reached: u64, last: u64, kept: u64) -> u64
    ensures { result ≡ unraised stamp reached last kept }
{
    if (last == stamp) & (kept == reached) {
        0
    } else {
        reached
    }
}

// One pass over the first `n` entries of the row that starts at place `from`, in item order: each
// raises the stamps of those items of `s` that are its own or lie in its write set (`passed`).
// After it the stamps are what the step chooses from a view whose later entries are initial
// (document 02, P3). At first all have the initial stamp.
//
// Siblings have the stamp and set of one write, so that the first of them raises all and the others
// needn't: the last entry of each slot is kept, to tell them by.
pub fn choose(b: &[u64], from: u64, all: bool, s: u64, n: u64, stamps: &mut [u64])
    requires { (from + 128 ≤ needed) × (n ≤ 64) × (needed ≤ length b.now)
        × (stamps.old ≡ replicate most_items 0) }
    ensures { ChosenAfter (entries_from b.now from all s) s n
        stamps.new }
{
    let mut kept = [Entry { stamp: 0, set: 0 }; SLOTS];
    for i in 0..n {
        let stamp = entry_word(b, from, all, s, i, 0);
        let reached = insert(entry_word(b, from, all, s, i, 1), i);
        let slot = ((stamp / 16 + stamp % 16) % SLOTS as u64) as usize;
        let last = kept[slot];
        let left = unraised(stamp, reached, last.stamp, last.set);
        raise(stamps, left & s, stamp);
        kept[slot] = Entry {
            stamp,
            set: reached,
        };
    }
}

// Item `k` of set `s`: the stamp asked for, no value yet.
fn ask_item(b: &mut [u64], d: u64, s: u64, stamps: &[u64], k: u64)
    requires { (1 ≤ d) × (d ≤ 8) × (k < 64) × (length stamps.now ≡ most_items) }
    ensures { b.new ≡ ask_for d s (get_or stamps.now k 0)
        b.old k }
{
    if has(s, k) {
        put_asked(b, d, k, stamps[k as usize]);
        put_value(b, d, k, 0);
    }
}

// The asks of the items of set `s`.
//
// Stays a `while` from member to member, as `get_items` does: a `for` over the items, with the test,
// was tried, and takes three times as long at sets of up to 12.
fn ask_items(b: &mut [u64], d: u64, s: u64, stamps: &[u64], items: u64)
    requires { (1 ≤ d) × (d ≤ 8) × (items ≤ 64) × (length stamps.now ≡ most_items) }
    ensures { b.new ≡ up_to (ask_from d s stamps.now)
        b.old items }
{
    let mut k = least_from(s, 0);
    while k < items {
        ask_item(b, d, s, stamps, k);
        k = least_from(s, k + 1);
    }
}

// The get of item `k`: a first get, or one with this stamp.
fn get_of(first: bool, d: u64, k: u64, stamp: u64) -> Message
    ensures { result ≡ cond first (FirstGet d k) (Get d k stamp) }
{
    if first {
        Message::FirstGet { client: d, item: k }
    } else {
        Message::Get {
            client: d,
            item: k,
            stamp,
        }
    }
}

// The get of item `k` of set `s` joins.
fn get_item(b: &mut [u64], first: bool, d: u64, s: u64, k: u64)
    requires { (1 ≤ d) × (d ≤ 8) × (k < 64) }
    ensures { b.new ≡ send_get first d s b.old k }
{
    if has(s, k) {
        let m = get_of(first, d, k, asked(b, d, k));
        send(b, m);
    }
}

// A get for each item of set `s`, ascending; a `while` for the reason given at `ask_items`.
pub fn get_items(b: &mut [u64], first: bool, d: u64, s: u64, items: u64)
    requires { (1 ≤ d) × (d ≤ 8) × (items ≤ 64) }
    ensures { b.new ≡ up_to (send_get first d s) b.old items }
{
    let mut k = least_from(s, 0);
    while k < items {
        get_item(b, first, d, s, k);
        k = least_from(s, k + 1);
    }
}

// Client `d`, which has its stamps, is busy in this mode, and the gets join.
#[tactic(auto, unfolding(start::specs::Start::begun))]
fn begin(b: &mut [u64], d: u64, s: u64, mode: u64, first: bool, items: u64)
    requires { (1 ≤ d) × (d ≤ 8) × (items ≤ 64) }
    ensures { b.new ≡ begun b.old d s mode first items }
{
    put_busy(b, d, mode, s);
    get_items(b, first, d, s, items);
}

// The stamps that client `d` asks for at the items of set `s`, chosen from its view.
pub fn ask(b: &mut [u64], d: u64, s: u64, items: u64)
    requires { (1 ≤ d) × (d ≤ 8) × (items ≤ 64) × (needed ≤ length b.old) }
    ensures { b.new ≡ up_to (ask_item d s items) b.old items }
{
    let mut stamps = [0; STAMPS];
    choose(
        b,
        VIEWS + ENTRY_WORDS * MOST_ITEMS * (d - 1),
        true,
        s,
        items,
        &mut stamps,
    );
    ask_items(b, d, s, &stamps, items);
}

// Client `d` starts a read of set `s`, in a block with `items` items.
#[tactic(auto, unfolding(start::specs::Start::read_started))]
pub fn start_read(b: &mut [u64], d: u64, s: u64, items: u64)
    requires { (1 ≤ d) × (d ≤ 8) × (items ≤ 64) × (items ≡ at b.old header items_at)
        × (needed ≤ length b.old) }
    ensures { b.new ≡ read_started b.old d s }
{
    ask(b, d, s, items);
    begin(b, d, s, READING, false, items);
}

// Client `d` starts a fast read of set `s` (document 02, P7): no stamp is chosen yet.
#[tactic(auto, unfolding(start::specs::Start::fast_read_started))]
pub fn start_fast_read(b: &mut [u64], d: u64, s: u64, items: u64)
    requires { (1 ≤ d) × (d ≤ 8) × (items ≤ 64) × (items ≡ at b.old header items_at) }
    ensures { b.new ≡ fast_read_started b.old d s }
{
    let stamps = [0; STAMPS];
    ask_items(b, d, s, &stamps, items);
    begin(b, d, s, FIRST_PART, true, items);
}
