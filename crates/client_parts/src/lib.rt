// The fields of a client's read part and write part, under way or last ended, in whichever words
// its mode or kind has them; 0 where it has no such part.

#![tactic(auto)]

ghost use Rattle.std.specs.Prelude.{cond, ◌||◌, ◌≡◌, ◌≤◌, ◌<◌};
ghost use Rattle.protocol.specs.Range.{has_first};
ghost use Rattle.layout.specs.Layout.{most_clients, most_items, is_write_mode};
ghost use Rattle.layout.specs.Decode.{client_in};

use client_fields::{last_kind, mode};
use itemset::has;
use layout::values::{read_value, written_value};
use layout::{FIRST_PART, MIXING, SECOND_PART, WRITING};
use protocol::kind::{MIXED, WRITE};

// The stages of a fast read. Any other read part is in stage 0.
// Stay numbers: `stage` promises the number that a part of the tables has.
pub const FIRST_STAGE: u64 = 1;

pub const SECOND_STAGE: u64 = 2;

// A word of a write part: `word` of a write `alone`, `other` of a mixed transaction.
fn written(alone: bool, mixed: bool, word: u64, other: u64) -> u64
    ensures { result ≡ cond (alone || mixed) (cond mixed other word) 0 }
{
    match (alone, mixed) {
        (_, true) => other,
        (true, false) => word,
        (false, false) => 0,
    }
}

// The items that the transaction under way writes.
pub fn write_set(b: &[u64], d: u64) -> u64
    requires { (1 ≤ d) × (d ≤ most_clients) }
    ensures { result ≡ (client_in b.now d).write.set }
{
    let mode = mode(b, d);
    let word = client_fields::set_of(b, d);
    let other = client_fields::write_set(b, d);
    written(mode == WRITING, mode == MIXING, word, other)
}

// Those of them that it awaits.
pub fn write_awaited(b: &[u64], d: u64) -> u64
    requires { (1 ≤ d) × (d ≤ most_clients) }
    ensures { result ≡ (client_in b.now d).write.awaited }
{
    let mode = mode(b, d);
    let word = client_fields::awaited(b, d);
    let other = client_fields::write_awaited(b, d);
    written(mode == WRITING, mode == MIXING, word, other)
}

pub fn write_stamp(b: &[u64], d: u64) -> u64
    requires { (1 ≤ d) × (d ≤ most_clients) }
    ensures { result ≡ (client_in b.now d).write.stamp }
{
    let mode = mode(b, d);
    let stamp = client_fields::stamp(b, d);
    written(mode == WRITING, mode == MIXING, stamp, stamp)
}

// The value that it writes to item `k`.
pub fn write_value(b: &[u64], d: u64, k: u64) -> u64
    requires { (1 ≤ d) × (d ≤ most_clients) × (k < most_items) }
    ensures { result ≡ (client_in b.now d).write.values k }
{
    let set = write_set(b, d);
    if has(set, k) {
        let mixed = mode(b, d) == MIXING;
        written_value(mixed, client_fields::value(b, d, k))
    } else {
        0
    }
}

// The set and the stamp of the last ended write.
pub fn last_write_set(b: &[u64], d: u64) -> u64
    requires { (1 ≤ d) × (d ≤ most_clients) }
    ensures { result ≡ (client_in b.now d).last.write.set }
{
    let kind = last_kind(b, d);
    let word = client_fields::last_set(b, d);
    let other = client_fields::last_write_set(b, d);
    written(kind == WRITE, kind == MIXED, word, other)
}

pub fn last_write_stamp(b: &[u64], d: u64) -> u64
    requires { (1 ≤ d) × (d ≤ most_clients) }
    ensures { result ≡ (client_in b.now d).last.write.stamp }
{
    let kind = last_kind(b, d);
    let stamp = client_fields::last_stamp(b, d);
    written(kind == WRITE, kind == MIXED, stamp, stamp)
}

// A word of a read part: of any transaction but a write.
fn read(mode: u64, word: u64) -> u64
    ensures { result ≡ cond (is_write_mode mode) 0 word }
{
    if mode == WRITING { 0 } else { word }
}

// The items that the transaction under way reads.
pub fn read_set(b: &[u64], d: u64) -> u64
    requires { (1 ≤ d) × (d ≤ most_clients) }
    ensures { result ≡ (client_in b.now d).read.set }
{
    read(mode(b, d), client_fields::set_of(b, d))
}

// Those of them that it awaits.
pub fn read_awaited(b: &[u64], d: u64) -> u64
    requires { (1 ≤ d) × (d ≤ most_clients) }
    ensures { result ≡ (client_in b.now d).read.awaited }
{
    read(mode(b, d), client_fields::awaited(b, d))
}

// The stage of its read part.
pub fn stage(b: &[u64], d: u64) -> u64
    requires { (1 ≤ d) × (d ≤ most_clients) }
    ensures { result ≡ (client_in b.now d).read.stage }
{
    match mode(b, d) {
        FIRST_PART => FIRST_STAGE,
        SECOND_PART => SECOND_STAGE,
        _ => 0,
    }
}

// The stamp that it asks for at item `k`.
pub fn asked(b: &[u64], d: u64, k: u64) -> u64
    requires { (1 ≤ d) × (d ≤ most_clients) × (k < most_items) }
    ensures { result ≡ (client_in b.now d).read.asked k }
{
    let set = read_set(b, d);
    if has(set, k) {
        client_fields::asked(b, d, k)
    } else {
        0
    }
}

// Its answer at item `k`.
pub fn answer(b: &[u64], d: u64, k: u64) -> u64
    requires { (1 ≤ d) × (d ≤ most_clients) × (k < most_items) }
    ensures { result ≡ (client_in b.now d).read.values k }
{
    let set = read_set(b, d);
    if has(set, k) {
        let mixed = mode(b, d) == MIXING;
        read_value(mixed, client_fields::value(b, d, k))
    } else {
        0
    }
}

// Whether the first reply of item `k` has come.
pub fn has_first(b: &[u64], d: u64, k: u64) -> bool
    requires { (1 ≤ d) × (d ≤ most_clients) × (k < most_items) }
    ensures { result ≡ has_first (client_in b.now d).read k }
{
    let set = read_set(b, d);
    let awaited = read_awaited(b, d);
    let stage = stage(b, d);
    has(set, k) & ((stage == SECOND_STAGE) | ((stage == FIRST_STAGE) & !has(awaited, k)))
}
