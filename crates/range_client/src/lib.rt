// Clients (document 01: desks): the transaction under way and the last ended one, with the stamps
// and values of their items.

#![tactic(auto)]

ghost use Rattle.std.specs.Prelude.{cond, not, ◌&&◌, ◌||◌, ◌≡◌, suc, ◌+◌, ◌≤◌, ◌<◌, length, get_or};
ghost use Rattle.basics.specs.Lists.{every};
ghost use Rattle.itemset.specs.Set.{has};
ghost use Rattle.protocol.specs.Range.{fits, each, stamp_in_range, entry_in_range};
ghost use Rattle.layout.specs.Layout.{most_clients, most_items, needed, base, scalars, last_values};
ghost use Rattle.layout.specs.Layout.{at, mode_at, set_at, awaited_at, last_kind_at, last_set_at};
ghost use Rattle.layout.specs.Layout.{last_write_set_at, item_at, is_mixed_kind};
ghost use Rattle.layout.specs.Decode.{first_in};
ghost use Rattle.gather.specs.Sized.{sized};
ghost use Rattle.range_client.specs.Clients.{rest_test, state_test, firsts_test, asked_test};
ghost use Rattle.range_client.specs.Clients.{mixed_test, running_test, last_read_test};
ghost use Rattle.range_client.specs.Clients.{last_write_test, last_test, client_test};

pub mod entry;

use crate::entry::{entries_in_range, some_entries_in_range};
use gather::{lacks, mixed, room, roomed, stamp_in_range, stamps_pass};
use layout::{
    ASKED, ENTRY_WORDS, FIRST_PART, FIRSTS, IDLE, LAST_STAMPS, LAST_VALUES, MIXING, MODES,
    MOST_ITEMS, SECOND_PART, VALUES, WRITING,
};
use protocol::kind::{MIXED, NONE, is_kind, shows_read, shows_write};

// The word of client `d` and item `k` in the section from `start` on.
fn item_word(b: &[u64], start: u64, d: u64, k: u64) -> u64
    requires { (start ≤ base last_values) × (1 ≤ d) × (d ≤ most_clients) × (k < most_items)
        × (needed ≤ length b.now) }
    ensures { result ≡ get_or b.now (start + item_at d k) 0 }
{
    let place = (start + (MOST_ITEMS * (d - 1) + k)) as usize;
    b[place]
}

// All the stamps of client `d` in the section from `start` on, tested once. What is gathered stays
// three words, which a struct would only name again.
fn all_stamps_in_range(b: &[u64], start: u64, d: u64, clients: u64, items: u64) -> bool
    requires { (start ≤ base last_values) × (1 ≤ d) × (d ≤ most_clients) × (clients ≤ most_clients)
        × (items ≤ most_items) × (needed ≤ length b.now) }
    ensures { result ≡ every items (λ k. stamp_in_range (sized clients items)
        (get_or b.now (start + item_at d k) 0)) }
{
    let room = room(clients);
    let mut stamps = 0;
    let mut mixes = 0;
    let mut rooms = 0;
    for k in 0..items {
        let stamp = item_word(b, start, d, k);
        stamps = stamps | stamp;
        mixes = mixes | mixed(stamp);
        rooms = rooms | roomed(stamp, clients, room);
    }
    stamps_pass(clients, stamps, mixes, rooms)
}

// Those of the items of `set`, one by one.
fn some_stamps_in_range(b: &[u64], start: u64, d: u64, set: u64, clients: u64, items: u64) -> bool
    requires { (start ≤ base last_values) × (1 ≤ d) × (d ≤ most_clients) × (clients ≤ most_clients)
        × (items ≤ most_items) × (needed ≤ length b.now) }
    ensures { result ≡ each (sized clients items) set
        (λ k. stamp_in_range (sized clients items) (get_or b.now (start + item_at d k) 0)) }
{
    (0..items).all(|k| lacks(set, k) | stamp_in_range(clients, item_word(b, start, d, k)))
}

// The same: words that a store has written are in range in or out of the set, so that the set is
// seldom looked at.
fn stamps_in_range(b: &[u64], start: u64, d: u64, set: u64, clients: u64, items: u64) -> bool
    requires { (start ≤ base last_values) × (1 ≤ d) × (d ≤ most_clients) × (clients ≤ most_clients)
        × (items ≤ most_items) × (needed ≤ length b.now) }
    ensures { result ≡ each (sized clients items) set
        (λ k. stamp_in_range (sized clients items) (get_or b.now (start + item_at d k) 0)) }
{
    if set == 0 {
        return true;
    }
    if all_stamps_in_range(b, start, d, clients, items) {
        return true;
    }
    some_stamps_in_range(b, start, d, set, clients, items)
}

// All the values of client `d` in the section from `start` on, tested once.
fn all_values_in_range(b: &[u64], start: u64, d: u64, items: u64) -> bool
    requires { (start ≤ base last_values) × (1 ≤ d) × (d ≤ most_clients) × (items ≤ most_items)
        × (needed ≤ length b.now) }
    ensures { result ≡ every items (λ k. fits (get_or b.now (start + item_at d k) 0)) }
{
    let mut values = 0;
    for k in 0..items {
        let value = item_word(b, start, d, k);
        values = values | value;
    }
    values < 4294967296
}

// Those of the items of `set`, one by one.
fn some_values_in_range(b: &[u64], start: u64, d: u64, set: u64, items: u64) -> bool
    requires { (start ≤ base last_values) × (1 ≤ d) × (d ≤ most_clients) × (items ≤ most_items)
        × (needed ≤ length b.now) }
    ensures { result ≡ each (sized 0 items) set
        (λ k. fits (get_or b.now (start + item_at d k) 0)) }
{
    (0..items).all(|k| lacks(set, k) | (item_word(b, start, d, k) < 4294967296))
}

// The same, likewise: only words that a mixed transaction left may be out of range.
fn values_in_range(b: &[u64], start: u64, d: u64, set: u64, items: u64) -> bool
    requires { (start ≤ base last_values) × (1 ≤ d) × (d ≤ most_clients) × (items ≤ most_items)
        × (needed ≤ length b.now) }
    ensures { result ≡ each (sized 0 items) set
        (λ k. fits (get_or b.now (start + item_at d k) 0)) }
{
    if set == 0 {
        return true;
    }
    if all_values_in_range(b, start, d, items) {
        return true;
    }
    some_values_in_range(b, start, d, set, items)
}

// The values of an ended transaction of this kind. A mixed one has two in the halves of a word,
// both in range whatever the word.
fn last_values_in_range(b: &[u64], d: u64, kind: u64, set: u64, items: u64) -> bool
    requires { (1 ≤ d) × (d ≤ most_clients) × (items ≤ most_items) × (needed ≤ length b.now) }
    ensures { result ≡ (is_mixed_kind kind || each (sized 0 items) set
        (λ k. fits (at b.now last_values (item_at d k)))) }
{
    if kind == MIXED {
        true
    } else {
        values_in_range(b, LAST_VALUES, d, set, items)
    }
}

// The items that an ended transaction of this kind wrote.
fn last_written_set(b: &[u64], d: u64, kind: u64) -> u64
    requires { (1 ≤ d) × (d ≤ most_clients) }
    ensures { result ≡ cond (is_mixed_kind kind) (at b.now scalars (last_write_set_at d))
        (at b.now scalars (last_set_at d)) }
{
    if kind == MIXED {
        client_fields::last_write_set(b, d)
    } else {
        client_fields::last_set(b, d)
    }
}

// The read part of the last ended transaction, where its kind shows one.
fn read_in_range(b: &[u64], d: u64, kind: u64, clients: u64, items: u64) -> bool
    requires { (1 ≤ d) × (d ≤ most_clients) × (clients ≤ most_clients) × (items ≤ most_items)
        × (needed ≤ length b.now) × (kind ≡ at b.now scalars (last_kind_at d)) }
    ensures { result ≡ last_read_test b.now d kind clients items }
{
    if shows_read(kind) {
        let set = client_fields::last_set(b, d);
        itemset::all_below(set, items)
            & (stamps_in_range(b, LAST_STAMPS, d, set, clients, items)
                & last_values_in_range(b, d, kind, set, items))
    } else {
        true
    }
}

// Its write part, likewise.
fn write_in_range(b: &[u64], d: u64, kind: u64, clients: u64, items: u64) -> bool
    requires { (1 ≤ d) × (d ≤ most_clients) × (clients ≤ most_clients) × (items ≤ most_items)
        × (needed ≤ length b.now) × (kind ≡ at b.now scalars (last_kind_at d)) }
    ensures { result ≡ last_write_test b.now d kind clients items }
{
    if shows_write(kind) {
        let set = last_written_set(b, d, kind);
        itemset::all_below(set, items)
            & stamp_in_range(clients, client_fields::last_stamp(b, d))
            & last_values_in_range(b, d, kind, set, items)
    } else {
        true
    }
}

fn last_in_range(b: &[u64], d: u64, clients: u64, items: u64) -> bool
    requires { (1 ≤ d) × (d ≤ most_clients) × (clients ≤ most_clients) × (items ≤ most_items)
        × (needed ≤ length b.now) }
    ensures { result ≡ last_test b.now d clients items }
{
    let kind = client_fields::last_kind(b, d);
    if kind == NONE {
        return true;
    }
    is_kind(kind)
        & read_in_range(b, d, kind, clients, items)
        & write_in_range(b, d, kind, clients, items)
}

// Whether it is idle exactly when it awaits nothing: a mixed transaction may await prepared replies
// alone.
fn rest_in_range(b: &[u64], d: u64, mode: u64, awaited: u64) -> bool
    requires { (1 ≤ d) × (d ≤ most_clients) × (mode ≡ at b.now scalars (mode_at d))
        × (awaited ≡ at b.now scalars (awaited_at d)) }
    ensures { result ≡ rest_test b.now d }
{
    if (mode == IDLE) == (awaited == 0) {
        return true;
    }
    (mode == MIXING) & (client_fields::write_awaited(b, d) != 0)
}

// Its mode, count, set and awaited items: it is idle exactly when it awaits none, and those lie in
// its set.
fn state_in_range(b: &[u64], d: u64, mode: u64, set: u64, items: u64) -> bool
    requires { (1 ≤ d) × (d ≤ most_clients) × (mode ≡ at b.now scalars (mode_at d))
        × (set ≡ at b.now scalars (set_at d)) }
    ensures { result ≡ state_test b.now d items }
{
    let count = client_fields::count(b, d);
    let awaited = client_fields::awaited(b, d);
    (mode < MODES)
        & (count < 4294967296)
        & itemset::all_below(set, items)
        & itemset::all_below(awaited, items)
        & (awaited & set == awaited)
        & rest_in_range(b, d, mode, awaited)
}

// The first replies that have come: those of the items of `set` that aren't in `awaited`, at first
// none. As above, all pass where a store has written them.
fn come_in_range(b: &[u64], d: u64, set: u64, awaited: u64, clients: u64, items: u64) -> bool
    requires { (1 ≤ d) × (d ≤ most_clients) × (clients ≤ most_clients) × (items ≤ most_items)
        × (needed ≤ length b.now) }
    ensures { result ≡ every items (λ k. not (has set k) || has awaited k
        || entry_in_range (sized clients items) (first_in b.now d k)) }
{
    if set == awaited {
        return true;
    }
    let start = FIRSTS + ENTRY_WORDS * MOST_ITEMS * (d - 1);
    if entries_in_range(b, start, clients, items) {
        return true;
    }
    some_entries_in_range(b, start, set, awaited, clients, items)
}

// In the first part of a fast read they are those of the items no longer awaited, in the second
// those of all; no other client has any.
fn firsts_in_range(b: &[u64], d: u64, mode: u64, set: u64, clients: u64, items: u64) -> bool
    requires { (1 ≤ d) × (d ≤ most_clients) × (clients ≤ most_clients) × (items ≤ most_items)
        × (needed ≤ length b.now) × (mode ≡ at b.now scalars (mode_at d))
        × (set ≡ at b.now scalars (set_at d)) }
    ensures { result ≡ firsts_test b.now d clients items }
{
    if mode < FIRST_PART {
        return true;
    }
    if mode == FIRST_PART {
        return come_in_range(b, d, set, client_fields::awaited(b, d), clients, items);
    }
    if mode == SECOND_PART {
        return come_in_range(b, d, set, 0, clients, items);
    }
    true
}

// The transaction under way, if it only reads: a stamp and a value for each item, and its first
// replies.
fn asked_in_range(b: &[u64], d: u64, mode: u64, set: u64, clients: u64, items: u64) -> bool
    requires { (1 ≤ d) × (d ≤ most_clients) × (clients ≤ most_clients) × (items ≤ most_items)
        × (needed ≤ length b.now) × (mode ≡ at b.now scalars (mode_at d))
        × (set ≡ at b.now scalars (set_at d)) }
    ensures { result ≡ asked_test b.now d clients items }
{
    stamps_in_range(b, ASKED, d, set, clients, items)
        & values_in_range(b, VALUES, d, set, items)
        & firsts_in_range(b, d, mode, set, clients, items)
}

// A mixed transaction under way: neither part is empty, it has a stamp for each item read and one
// for its write part, and the items awaited in that part lie in its set. Its values are the halves
// of words, in range whatever the words.
fn mixed_in_range(b: &[u64], d: u64, set: u64, clients: u64, items: u64) -> bool
    requires { (1 ≤ d) × (d ≤ most_clients) × (clients ≤ most_clients) × (items ≤ most_items)
        × (needed ≤ length b.now) × (set ≡ at b.now scalars (set_at d)) }
    ensures { result ≡ mixed_test b.now d clients items }
{
    let written = client_fields::write_set(b, d);
    let awaited = client_fields::write_awaited(b, d);
    (set != 0)
        & (written != 0)
        & stamps_in_range(b, ASKED, d, set, clients, items)
        & itemset::all_below(written, items)
        & itemset::all_below(awaited, items)
        & (awaited & written == awaited)
        & stamp_in_range(clients, client_fields::stamp(b, d))
}

// The transaction under way: a write has one stamp, and a value for each item; any other as above.
fn running_in_range(b: &[u64], d: u64, mode: u64, set: u64, clients: u64, items: u64) -> bool
    requires { (1 ≤ d) × (d ≤ most_clients) × (clients ≤ most_clients) × (items ≤ most_items)
        × (needed ≤ length b.now) × (mode ≡ at b.now scalars (mode_at d))
        × (set ≡ at b.now scalars (set_at d)) }
    ensures { result ≡ running_test b.now d clients items }
{
    if mode == WRITING {
        return stamp_in_range(clients, client_fields::stamp(b, d))
            & values_in_range(b, VALUES, d, set, items);
    }
    if mode == MIXING {
        return mixed_in_range(b, d, set, clients, items);
    }
    asked_in_range(b, d, mode, set, clients, items)
}

// Its count and its transaction under way. With none under way it has no items and awaits none, and
// there is nothing more to look at.
fn under_way_in_range(b: &[u64], d: u64, mode: u64, set: u64, clients: u64, items: u64) -> bool
    requires { (1 ≤ d) × (d ≤ most_clients) × (clients ≤ most_clients) × (items ≤ most_items)
        × (needed ≤ length b.now) × (mode ≡ at b.now scalars (mode_at d))
        × (set ≡ at b.now scalars (set_at d)) }
    ensures { result ≡ (state_test b.now d items
        && running_test b.now d clients items) }
{
    if (mode == IDLE) & (set == 0) {
        return (client_fields::count(b, d) < 4294967296) & (client_fields::awaited(b, d) == 0);
    }
    state_in_range(b, d, mode, set, items) & running_in_range(b, d, mode, set, clients, items)
}

fn client_in_range(b: &[u64], d: u64, clients: u64, items: u64) -> bool
    requires { (1 ≤ d) × (d ≤ most_clients) × (clients ≤ most_clients) × (items ≤ most_items)
        × (needed ≤ length b.now) }
    ensures { result ≡ client_test b.now d clients items }
{
    let mode = client_fields::mode(b, d);
    let set = client_fields::set_of(b, d);
    under_way_in_range(b, d, mode, set, clients, items) & last_in_range(b, d, clients, items)
}

pub fn clients_in_range(b: &[u64], clients: u64, items: u64) -> bool
    requires { (clients ≤ most_clients) × (items ≤ most_items) × (needed ≤ length b.now) }
    ensures { result ≡ every clients (λ i. client_test b.now (suc i) clients items) }
{
    (0..clients).all(|i| client_in_range(b, i + 1, clients, items))
}
