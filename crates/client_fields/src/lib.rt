// The fields of a client (document 01: desk) but its view and its first replies: eleven of its own,
// and four words for each item.

#![tactic(auto)]

ghost use Rattle.std.specs.Prelude.{◌≡◌, ◌+◌, ◌≤◌, ◌<◌, get_or, set};
ghost use Rattle.layout.specs.Layout.{at, store, scalars, asked, values, last_stamps, last_values};
ghost use Rattle.layout.specs.Layout.{client_words, scalar_at, mode_at, count_at, set_at, awaited_at};
ghost use Rattle.layout.specs.Layout.{stamp_at, last_kind_at, last_set_at, last_stamp_at, write_set_at};
ghost use Rattle.layout.specs.Layout.{write_awaited_at, last_write_set_at, item_at, needed};

use layout::{
    ASKED, CLIENT_WORDS, LAST_STAMPS, LAST_VALUES, MOST_ITEMS, SCALARS, VALUES, put_word_in,
    word_in,
};

// Word `f` of the scalars of client `d`.
fn scalar(b: &[u64], d: u64, f: u64) -> u64
    requires { (1 ≤ d) × (d ≤ 8) × (f < client_words) }
    ensures { result ≡ at b.now scalars (scalar_at d f) }
{
    word_in(b, SCALARS, CLIENT_WORDS * (d - 1) + f)
}

fn put_scalar(b: &mut [u64], d: u64, f: u64, v: u64)
    requires { (1 ≤ d) × (d ≤ 8) × (f < client_words) }
    ensures { b.new ≡ store b.old scalars (scalar_at d f) v }
{
    put_word_in(b, SCALARS, CLIENT_WORDS * (d - 1) + f, v);
}

// The word of item `k` of client `d`, in the section that starts at `base`.
fn item_word(b: &[u64], base: u64, d: u64, k: u64) -> u64
    requires { (base < needed) × (1 ≤ d) × (d ≤ 8) × (k < 64) }
    ensures { result ≡ get_or b.now (base + item_at d k) 0 }
{
    word_in(b, base, MOST_ITEMS * (d - 1) + k)
}

fn put_item_word(b: &mut [u64], base: u64, d: u64, k: u64, v: u64)
    requires { (base < needed) × (1 ≤ d) × (d ≤ 8) × (k < 64) }
    ensures { b.new ≡ set b.old (base + item_at d k) v }
{
    put_word_in(b, base, MOST_ITEMS * (d - 1) + k, v);
}

// Each field keeps its two functions: callers and docs/PROMISES.md name a getter and a setter a
// field, and a number for a field, or a const parameter, would tell a reader less than its name.

// 0 idle, 1 reading, 2 writing, 3 or 4 in the first or the second part of a fast read, 5 in a mixed
// transaction.
pub fn mode(b: &[u64], d: u64) -> u64
    requires { (1 ≤ d) × (d ≤ 8) }
    ensures { result ≡ at b.now scalars (mode_at d) }
{
    scalar(b, d, 0)
}

pub fn put_mode(b: &mut [u64], d: u64, v: u64)
    requires { (1 ≤ d) × (d ≤ 8) }
    ensures { b.new ≡ store b.old scalars (mode_at d) v }
{
    put_scalar(b, d, 0, v);
}

// The number of the last write that it started, 0 before the first.
pub fn count(b: &[u64], d: u64) -> u64
    requires { (1 ≤ d) × (d ≤ 8) }
    ensures { result ≡ at b.now scalars (count_at d) }
{
    scalar(b, d, 1)
}

pub fn put_count(b: &mut [u64], d: u64, v: u64)
    requires { (1 ≤ d) × (d ≤ 8) }
    ensures { b.new ≡ store b.old scalars (count_at d) v }
{
    put_scalar(b, d, 1, v);
}

// The items of its transaction under way, of a mixed one those it reads.
pub fn set_of(b: &[u64], d: u64) -> u64
    requires { (1 ≤ d) × (d ≤ 8) }
    ensures { result ≡ at b.now scalars (set_at d) }
{
    scalar(b, d, 2)
}

pub fn put_set(b: &mut [u64], d: u64, v: u64)
    requires { (1 ≤ d) × (d ≤ 8) }
    ensures { b.new ≡ store b.old scalars (set_at d) v }
{
    put_scalar(b, d, 2, v);
}

// Those of them that it still awaits.
pub fn awaited(b: &[u64], d: u64) -> u64
    requires { (1 ≤ d) × (d ≤ 8) }
    ensures { result ≡ at b.now scalars (awaited_at d) }
{
    scalar(b, d, 3)
}

pub fn put_awaited(b: &mut [u64], d: u64, v: u64)
    requires { (1 ≤ d) × (d ≤ 8) }
    ensures { b.new ≡ store b.old scalars (awaited_at d) v }
{
    put_scalar(b, d, 3, v);
}

// The one stamp of a write or of a mixed transaction under way.
pub fn stamp(b: &[u64], d: u64) -> u64
    requires { (1 ≤ d) × (d ≤ 8) }
    ensures { result ≡ at b.now scalars (stamp_at d) }
{
    scalar(b, d, 4)
}

pub fn put_stamp(b: &mut [u64], d: u64, v: u64)
    requires { (1 ≤ d) × (d ≤ 8) }
    ensures { b.new ≡ store b.old scalars (stamp_at d) v }
{
    put_scalar(b, d, 4, v);
}

// Its last ended transaction: 0 none yet, 1 a read, 2 a write, 3 a fast read, 4 a mixed one.
pub fn last_kind(b: &[u64], d: u64) -> u64
    requires { (1 ≤ d) × (d ≤ 8) }
    ensures { result ≡ at b.now scalars (last_kind_at d) }
{
    scalar(b, d, 5)
}

pub fn put_last_kind(b: &mut [u64], d: u64, v: u64)
    requires { (1 ≤ d) × (d ≤ 8) }
    ensures { b.new ≡ store b.old scalars (last_kind_at d) v }
{
    put_scalar(b, d, 5, v);
}

// The last ended transaction's items, of a mixed one those it read.
pub fn last_set(b: &[u64], d: u64) -> u64
    requires { (1 ≤ d) × (d ≤ 8) }
    ensures { result ≡ at b.now scalars (last_set_at d) }
{
    scalar(b, d, 6)
}

pub fn put_last_set(b: &mut [u64], d: u64, v: u64)
    requires { (1 ≤ d) × (d ≤ 8) }
    ensures { b.new ≡ store b.old scalars (last_set_at d) v }
{
    put_scalar(b, d, 6, v);
}

// The one stamp of a last write or mixed transaction.
pub fn last_stamp(b: &[u64], d: u64) -> u64
    requires { (1 ≤ d) × (d ≤ 8) }
    ensures { result ≡ at b.now scalars (last_stamp_at d) }
{
    scalar(b, d, 7)
}

pub fn put_last_stamp(b: &mut [u64], d: u64, v: u64)
    requires { (1 ≤ d) × (d ≤ 8) }
    ensures { b.new ≡ store b.old scalars (last_stamp_at d) v }
{
    put_scalar(b, d, 7, v);
}

// The items that a mixed transaction under way writes.
pub fn write_set(b: &[u64], d: u64) -> u64
    requires { (1 ≤ d) × (d ≤ 8) }
    ensures { result ≡ at b.now scalars (write_set_at d) }
{
    scalar(b, d, 8)
}

pub fn put_write_set(b: &mut [u64], d: u64, v: u64)
    requires { (1 ≤ d) × (d ≤ 8) }
    ensures { b.new ≡ store b.old scalars (write_set_at d) v }
{
    put_scalar(b, d, 8, v);
}

// Those of them that it still awaits.
pub fn write_awaited(b: &[u64], d: u64) -> u64
    requires { (1 ≤ d) × (d ≤ 8) }
    ensures { result ≡ at b.now scalars (write_awaited_at d) }
{
    scalar(b, d, 9)
}

pub fn put_write_awaited(b: &mut [u64], d: u64, v: u64)
    requires { (1 ≤ d) × (d ≤ 8) }
    ensures { b.new ≡ store b.old scalars (write_awaited_at d) v }
{
    put_scalar(b, d, 9, v);
}

// The items that the last ended transaction wrote, if it was a mixed one.
pub fn last_write_set(b: &[u64], d: u64) -> u64
    requires { (1 ≤ d) × (d ≤ 8) }
    ensures { result ≡ at b.now scalars (last_write_set_at d) }
{
    scalar(b, d, 10)
}

pub fn put_last_write_set(b: &mut [u64], d: u64, v: u64)
    requires { (1 ≤ d) × (d ≤ 8) }
    ensures { b.new ≡ store b.old scalars (last_write_set_at d) v }
{
    put_scalar(b, d, 10, v);
}

// The stamp that a read under way asks for at item `k`.
pub fn asked(b: &[u64], d: u64, k: u64) -> u64
    requires { (1 ≤ d) × (d ≤ 8) × (k < 64) }
    ensures { result ≡ at b.now asked (item_at d k) }
{
    item_word(b, ASKED, d, k)
}

pub fn put_asked(b: &mut [u64], d: u64, k: u64, v: u64)
    requires { (1 ≤ d) × (d ≤ 8) × (k < 64) }
    ensures { b.new ≡ store b.old asked (item_at d k) v }
{
    put_item_word(b, ASKED, d, k, v);
}

// The value of item `k`: a read's answer so far, or a write's; of a mixed transaction both, in the
// low and in the high half.
pub fn value(b: &[u64], d: u64, k: u64) -> u64
    requires { (1 ≤ d) × (d ≤ 8) × (k < 64) }
    ensures { result ≡ at b.now values (item_at d k) }
{
    item_word(b, VALUES, d, k)
}

pub fn put_value(b: &mut [u64], d: u64, k: u64, v: u64)
    requires { (1 ≤ d) × (d ≤ 8) × (k < 64) }
    ensures { b.new ≡ store b.old values (item_at d k) v }
{
    put_item_word(b, VALUES, d, k, v);
}

// The stamp of item `k` in the last ended transaction, which read.
pub fn last_read_stamp(b: &[u64], d: u64, k: u64) -> u64
    requires { (1 ≤ d) × (d ≤ 8) × (k < 64) }
    ensures { result ≡ at b.now last_stamps (item_at d k) }
{
    item_word(b, LAST_STAMPS, d, k)
}

pub fn put_last_read_stamp(b: &mut [u64], d: u64, k: u64, v: u64)
    requires { (1 ≤ d) × (d ≤ 8) × (k < 64) }
    ensures { b.new ≡ store b.old last_stamps (item_at d k) v }
{
    put_item_word(b, LAST_STAMPS, d, k, v);
}

// The value of item `k` in the last ended transaction, of a mixed one both.
pub fn last_value(b: &[u64], d: u64, k: u64) -> u64
    requires { (1 ≤ d) × (d ≤ 8) × (k < 64) }
    ensures { result ≡ at b.now last_values (item_at d k) }
{
    item_word(b, LAST_VALUES, d, k)
}

pub fn put_last_value(b: &mut [u64], d: u64, k: u64, v: u64)
    requires { (1 ≤ d) × (d ≤ 8) × (k < 64) }
    ensures { b.new ≡ store b.old last_values (item_at d k) v }
{
    put_item_word(b, LAST_VALUES, d, k, v);
}
