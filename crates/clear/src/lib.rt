// A clearing: drops the stored versions whose stamp is in no view, no latest, no message, no write
// under way and no first reply that a fast read keeps. The stamps in use are gathered once and
// marked in a table of slots, so that most versions are told by one look at it.

#![tactic(auto)]

ghost use Rattle.std.specs.Prelude.{true, cond, [], ◌≢◌, ◌≡◌, ◌+◌, ◌*◌, ◌≤◌, ◌<◌, length, take};
ghost use Rattle.std.proofs.lemmas.List.Edits.{sets};
ghost use Rattle.basics.specs.Lists.{table};
ghost use Rattle.protocol.specs.Range.{has_first};
ghost use Rattle.protocol.specs.Clear.{gone};
ghost use Rattle.layout.specs.Layout.{most_clients, most_items, most_versions, most_messages};
ghost use Rattle.layout.specs.Layout.{message_words, needed, base, header, versions, at, clients_at};
ghost use Rattle.layout.specs.Layout.{items_at};
ghost use Rattle.layout.specs.Decode.{read_in, version_in, tables_of, valid_block};
ghost use Rattle.layout.specs.Store.{store_version};
ghost use Rattle.clear.specs.Clear.{words_of_versions, cleared_block};
ghost use Rattle.clear.specs.Stamps.{most_entries, entry_stamp, message_stamp, write_stamp};
ghost use Rattle.clear.specs.Stamps.{written_by, first_stamp, message_stamps, most_stamps};
ghost use Rattle.clear.specs.Stamps.{stamp_in, stamp_count, none_fast};
ghost use Rattle.clear.specs.Stamps.{absent, most_slots, slot_of, marked, Marks, staying};
ghost use Rattle.clear.specs.Stamps.{NoneInitial};

use gather::lacks;
use layout::{
    ENTRY_WORDS, FIRST_PART, FIRSTS, LATEST, MIXING, MOST_CLIENTS, MOST_ITEMS, MOST_MESSAGES,
    SECOND_PART, WRITING,
};
use protocol::message_kind::{FIRST_GET, GOT, PREPARE};
use range_message::message_word;

// Behind the entries' stamps, where those of the messages start, then their latest's, then those of
// writes under way, then those of first replies; and how many there are in all.
const MESSAGE_STAMPS: u64 = MOST_ITEMS * (MOST_CLIENTS + 1);

const LATEST_STAMPS: u64 = MESSAGE_STAMPS + MOST_MESSAGES;

const WRITE_STAMPS: u64 = LATEST_STAMPS + MOST_MESSAGES;

const FIRST_STAMPS: u64 = WRITE_STAMPS + MOST_CLIENTS;

const ENTRIES: usize = MESSAGE_STAMPS as usize;

// All but those of first replies: there are none where no client is in a fast read.
const STAMPS_WITHOUT_FIRSTS: usize = FIRST_STAMPS as usize;

const STAMPS: usize = (FIRST_STAMPS + MOST_ITEMS * MOST_CLIENTS) as usize;

// 512 numbers, of 8 clients each.
const SLOTS: usize = 4096;

// The stamp of entry `p`, of latest or of a view behind it, if its client and item exist. Here and
// below, none is 0, no Option: it is the initial stamp, which no stored version has.
#[tactic(auto, unfolding(crate::specs::Stamps::entry_stamp))]
fn entry_stamp(b: &[u64], clients: u64, items: u64, p: u64) -> u64
    requires { (p < most_entries) × (needed ≤ length b.now)
        × (clients ≡ at b.now header clients_at) × (items ≡ at b.now header items_at) }
    ensures { result ≡ entry_stamp b.now p }
{
    if (p / MOST_ITEMS <= clients) & (p % MOST_ITEMS < items) {
        let place = (LATEST + ENTRY_WORDS * p) as usize;
        b[place]
    } else {
        0
    }
}

// Word `f` of message `i`, if there is one and its kind is `kind` or a greater; a first get has
// no stamp.
#[tactic(auto, unfolding(crate::specs::Stamps::message_stamp))]
fn message_stamp(b: &[u64], kind: u64, f: u64, i: u64) -> u64
    requires { (f < message_words) × (i < most_messages) × (needed ≤ length b.now) }
    ensures { result ≡ message_stamp b.now kind f i }
{
    let messages = layout::message_count(b);
    let own = message_word(b, i, 0);
    if (i < messages) & (kind <= own) & (own != FIRST_GET) {
        message_word(b, i, f)
    } else {
        0
    }
}

// The items that client `d` writes in this mode, if it does.
fn written_by(b: &[u64], d: u64, mode: u64) -> u64
    requires { (1 ≤ d) × (d ≤ most_clients) }
    ensures { result ≡ written_by b.now d mode }
{
    if mode == MIXING {
        client_fields::write_set(b, d)
    } else {
        client_fields::set_of(b, d)
    }
}

// The stamp of client `i + 1`, if it is writing, in a mixed transaction too: a field only where its
// write set isn't empty.
#[tactic(auto, unfolding(crate::specs::Stamps::write_stamp))]
fn write_stamp(b: &[u64], i: u64) -> u64
    requires { i < most_clients }
    ensures { result ≡ write_stamp b.now i }
{
    let d = i + 1;
    let clients = layout::clients(b);
    let mode = client_fields::mode(b, d);
    let set = written_by(b, d, mode);
    if (i < clients) & ((mode == WRITING) | (mode == MIXING)) & (set != 0) {
        client_fields::stamp(b, d)
    } else {
        0
    }
}

// Whether the first reply of item `k` has come to client `d`.
fn has_first(b: &[u64], d: u64, k: u64) -> bool
    requires { (1 ≤ d) × (d ≤ most_clients) × (k < most_items) }
    ensures { result ≡ has_first (read_in b.now d) k }
{
    let mode = client_fields::mode(b, d);
    let set = client_fields::set_of(b, d);
    let awaited = client_fields::awaited(b, d);
    itemset::has(set, k) & ((mode == SECOND_PART) | ((mode == FIRST_PART) & lacks(awaited, k)))
}

// The stamp of first reply `p`, if its client and item exist and it has come.
#[tactic(auto, unfolding(crate::specs::Stamps::first_stamp))]
fn first_stamp(b: &[u64], p: u64) -> u64
    requires { (p < most_items * most_clients) × (needed ≤ length b.now) }
    ensures { result ≡ first_stamp b.now p }
{
    let clients = layout::clients(b);
    let items = layout::items(b);
    let i = p / MOST_ITEMS;
    let k = p % MOST_ITEMS;
    if (i < clients) & (k < items) & has_first(b, i + 1, k) {
        let place = (FIRSTS + ENTRY_WORDS * p) as usize;
        b[place]
    } else {
        0
    }
}

// Stamp `p` of all, behind those of the entries.
#[tactic(auto, unfolding(crate::specs::Stamps::stamp_in))]
fn stamp_at(b: &[u64], p: u64) -> u64
    requires { (message_stamps ≤ p) × (p < most_stamps) × (needed ≤ length b.now) }
    ensures { result ≡ stamp_in b.now p }
{
    match p {
        0..LATEST_STAMPS => message_stamp(b, PREPARE, 4, p - MESSAGE_STAMPS),
        LATEST_STAMPS..WRITE_STAMPS => message_stamp(b, GOT, 6, p - LATEST_STAMPS),
        WRITE_STAMPS..FIRST_STAMPS => write_stamp(b, p - WRITE_STAMPS),
        _ => first_stamp(b, p - FIRST_STAMPS),
    }
}

// The stamps of the entries: the most numerous, so in a loop of their own, which reads the sizes
// once.
fn gather_entries(b: &[u64], stamps: &mut [u64])
    requires { (most_entries ≤ length stamps.old) × (needed ≤ length b.now) }
    ensures { (length stamps.new ≡ length stamps.old)
        × (take most_entries stamps.new ≡ table most_entries
        (stamp_in b.now)) }
{
    let clients = layout::clients(b);
    let items = layout::items(b);
    for p in 0..ENTRIES {
        stamps[p] = entry_stamp(b, clients, items, p as u64);
    }
}

// As many stamps as there is room for.
fn gather(b: &[u64], stamps: &mut [u64])
    requires { (most_entries ≤ length stamps.old) × (length stamps.old ≤ most_stamps)
        × (needed ≤ length b.now) }
    ensures { stamps.new ≡ table (length stamps.old)
        (stamp_in b.now) }
{
    gather_entries(b, stamps);
    for p in ENTRIES..stamps.len() {
        stamps[p] = stamp_at(b, p as u64);
    }
}

// The slot of a stamp.
fn slot_of(stamp: u64) -> usize
    ensures { result ≡ slot_of stamp }
{
    let slots = SLOTS as u64;
    ((stamp / 16 * MOST_CLIENTS + stamp % 16 % MOST_CLIENTS) % slots) as usize
}

// The stamp in its slot, if it isn't the initial one.
#[tactic(auto, unfolding(crate::specs::Stamps::marked))]
fn mark(slots: &mut [u64], stamp: u64)
    requires { length slots.old ≡ most_slots }
    ensures { slots.new ≡ marked slots.old stamp }
{
    if stamp != 0 {
        let slot = slot_of(stamp);
        slots[slot] = stamp;
    }
}

// Each stamp in its slot.
fn mark_all(slots: &mut [u64], stamps: &[u64])
    requires { Marks [] slots.old }
    ensures { Marks stamps.now slots.new }
{
    for stamp in stamps {
        mark(slots, *stamp);
    }
}

// Whether none of the stamps is this one, by looking at each. Stays `all`: with `contains` a clearing that
// looks at each for all versions took half as long again.
fn is_absent(stamps: &[u64], stamp: u64) -> bool
    ensures { result ≡ absent stamps.now stamp }
{
    stamps.iter().all(|other| *other != stamp)
}

// The same, by its slot: only where another stamp has it, each is looked at.
fn is_unused(stamps: &[u64], slots: &[u64], stamp: u64) -> bool
    requires { Marks stamps.now slots.now × (stamp ≢ 0) }
    ensures { result ≡ absent stamps.now stamp }
{
    match slots[slot_of(stamp)] {
        0 => true,
        found if found == stamp => false,
        _ => is_absent(stamps, stamp),
    }
}

// Version `i` moves behind the `kept` that stay, if it stays too; so many stay then.
fn keep(b: &mut [u64], stamps: &[u64], slots: &[u64], i: u64, kept: u64) -> u64
    requires { (i < most_versions) × (kept ≤ i) × (needed ≤ length b.old)
        × Marks stamps.now slots.now × ((version_in b.old i).stamp ≢ 0) }
    ensures value { result ≡ cond (absent stamps.now (version_in b.old i).stamp)
        kept (kept + 1) }
    ensures b_after { b.new ≡ cond (absent stamps.now
        (version_in b.old i).stamp) b.old
        (store_version b.old kept (version_in b.old i)) }
{
    let v = versions::version(b, i);
    let stamp = v.stamp;
    if is_unused(stamps, slots, stamp) {
        kept
    } else {
        versions::put(b, kept, v);
        kept + 1
    }
}

// Of the first `n` versions those that stay move down; how many they are.
fn keep_all(b: &mut [u64], stamps: &[u64], slots: &[u64], n: u64) -> u64
    requires { (n ≤ most_versions) × (needed ≤ length b.old) × Marks stamps.now slots.now
        × NoneInitial b.old n }
    ensures value { result ≡ length (staying stamps.now b.old n) }
    ensures b_after { b.new ≡ sets b.old (base versions)
        (words_of_versions (staying stamps.now b.old n)) }
{
    let mut kept = 0;
    for i in 0..n {
        kept = keep(b, stamps, slots, i, kept);
    }
    kept
}

// Clears a valid block, with room for the `N` stamps in use. A call of its own, so that a block that is
// refused needs none of this room.
#[inline(never)]
fn clear_by<const N: usize>(b: &mut [u64]) -> u64
    requires { (valid_block b.old ≡ true) × (N ≡ stamp_count b.old) }
    ensures value { result ≡ gone (tables_of b.old) }
    ensures b_after { b.new ≡ cleared_block b.old }
{
    let mut stamps = [0; N];
    let mut slots = [0; SLOTS];
    gather(b, &mut stamps);
    mark_all(&mut slots, &stamps);
    let n = layout::version_count(b);
    let kept = keep_all(b, &stamps, &slots, n);
    layout::put_version_count(b, kept);
    n - kept
}

// Whether no client is in a fast read.
#[tactic(auto, unfolding(crate::specs::Stamps::none_fast, basics::specs::Lists::every))]
fn none_fast(b: &[u64]) -> bool
    requires { valid_block b.now ≡ true }
    ensures { result ≡ none_fast b.now }
{
    for i in 0..layout::clients(b) {
        if matches!(client_fields::mode(b, i + 1), FIRST_PART | SECOND_PART) {
            return false;
        }
    }
    true
}

// Clears a valid block, and answers how many versions went.
pub fn clear(b: &mut [u64]) -> u64
    requires { valid_block b.old ≡ true }
    ensures value { result ≡ gone (tables_of b.old) }
    ensures b_after { b.new ≡ cleared_block b.old }
{
    if none_fast(b) {
        clear_by::<STAMPS_WITHOUT_FIRSTS>(b)
    } else {
        clear_by::<STAMPS>(b)
    }
}
