// The log frame of a client's last ended transaction, from the words of the block into a lent
// output.
//
// The read part and the write part stay apart, function by function. One for both would take the
// kind's test, the sizes and the step as parameters, and would be no shorter than the two.

#![tactic(auto)]

ghost use Rattle.std.specs.Prelude.{◌++◌, ◌≡◌, ◌+◌, ◌*◌, ◌≤◌, ◌<◌, length, drop};
ghost use Rattle.std.proofs.lemmas.List.Edits.{sets};
ghost use Rattle.itemset.specs.Set.{count};
ghost use Rattle.layout.specs.Layout.{at, scalars, last_values, last_stamp_at, item_at, read_value};
ghost use Rattle.layout.specs.Layout.{written_value};
ghost use Rattle.protocol.specs.LogFrame.{frame_byte};
ghost use Rattle.protocol.specs.Tables.{number_of};
ghost use Rattle.show.specs.Show.{frame_in, head, last_mixed, last_written_set, read_item};
ghost use Rattle.show.specs.Show.{written_item, put_item, read_part, write_part};
ghost use Rattle.show.specs.Show.{read_length, write_length, read_shown, write_shown};

use client_fields::{last_kind, last_read_stamp, last_set, last_stamp, last_value, last_write_set};
use hexadecimal::put_bytes;
use itemset::{count, has, rank};
use layout::values::{read_value, written_value};
use protocol::kind::{FAST_READ, MIXED, NONE, READ, WRITE, shows_read, shows_write};

// The byte that the log frame of a kind begins with.
fn frame_byte(kind: u64) -> u8
    ensures { result ≡ frame_byte kind }
{
    match kind {
        READ => 0x21,
        WRITE => 0x20,
        FAST_READ => 0x23,
        _ => 0x24,
    }
}

// The answer of item `k` in the last ended transaction.
fn last_answer(b: &[u64], d: u64, k: u64) -> u64
    requires { (1 ≤ d) × (d ≤ 8) × (k < 64) }
    ensures { result ≡ read_value (last_mixed b.now d)
        (at b.now last_values (item_at d k)) }
{
    let mixed = last_kind(b, d) == MIXED;
    read_value(mixed, last_value(b, d, k))
}

// The value of item `k` that it wrote.
fn last_value_written(b: &[u64], d: u64, k: u64) -> u64
    requires { (1 ≤ d) × (d ≤ 8) × (k < 64) }
    ensures { result ≡ written_value (last_mixed b.now d)
        (at b.now last_values (item_at d k)) }
{
    let mixed = last_kind(b, d) == MIXED;
    written_value(mixed, last_value(b, d, k))
}

// The items that the last ended transaction wrote, if it did.
fn last_written_set(b: &[u64], d: u64) -> u64
    requires { (1 ≤ d) × (d ≤ 8) }
    ensures { result ≡ last_written_set b.now d }
{
    if last_kind(b, d) == MIXED {
        last_write_set(b, d)
    } else {
        last_set(b, d)
    }
}

// Kind and client: what every frame begins with.
fn put_head(out: &mut [u8], byte: u8, d: u64)
    requires { 2 ≤ length out.old }
    ensures { out.new ≡ sets out.old 0 (head byte d) }
{
    out[0] = byte;
    put_bytes(out, 1, 1, d);
}

// Item `k` of a last read: number (4), writing client (1), value (4).
fn put_entry(b: &[u64], d: u64, k: u64, out: &mut [u8], at: usize)
    requires { (1 ≤ d) × (d ≤ 8) × (k < 64) × (at + 9 ≤ length out.old) }
    ensures { out.new ≡ sets out.old at
        (read_item b.now d k) }
{
    let stamp = last_read_stamp(b, d, k);
    let value = last_answer(b, d, k);
    put_bytes(out, at, 4, stamp / 16);
    put_bytes(out, at + 4, 1, stamp % 16);
    put_bytes(out, at + 5, 4, value);
}

// Item `k` where the last read's set `s` has it, behind the items below it, which begin at `at`.
#[tactic(auto, using(itemset::proofs::Counts::rank_lt))]
fn put_read_item(b: &[u64], d: u64, s: u64, out: &mut [u8], at: usize, k: u64)
    requires { (1 ≤ d) × (d ≤ 8) × (k < 64) × (at + 9 * count s ≤ length out.old) }
    ensures { out.new ≡ put_item (read_item b.now d) at 9 s
        out.old k }
{
    if has(s, k) {
        put_entry(b, d, k, out, at + (9 * rank(s, k)) as usize);
    }
}

// The read part of a last transaction that read set `s`: the set, then its entries, ascending.
#[tactic(auto, unfolding(basics::specs::Fold::up_to))]
fn put_read_part(b: &[u64], d: u64, s: u64, out: &mut [u8], at: usize)
    requires { (1 ≤ d) × (d ≤ 8) × (at + 8 + 9 * count s ≤ length out.old) }
    ensures { out.new ≡ sets out.old at
        (read_part b.now d s) }
{
    put_bytes(out, at, 8, s);
    let first = at + 8;
    for k in 0..64 {
        put_read_item(b, d, s, out, first, k);
    }
}

// Item `k` where the last write's set `s` has it, its value (4), behind the items below it, which
// begin at `at`.
#[tactic(auto, using(itemset::proofs::Counts::rank_lt))]
fn put_written_item(b: &[u64], d: u64, s: u64, out: &mut [u8], at: usize, k: u64)
    requires { (1 ≤ d) × (d ≤ 8) × (k < 64) × (at + 4 * count s ≤ length out.old) }
    ensures { out.new ≡ put_item (written_item b.now d) at 4 s
        out.old k }
{
    if has(s, k) {
        put_bytes(
            out,
            at + (4 * rank(s, k)) as usize,
            4,
            last_value_written(b, d, k),
        );
    }
}

// The number of a last write: that of its stamp, never the client's count.
fn last_number(b: &[u64], d: u64) -> u64
    requires { (1 ≤ d) × (d ≤ 8) }
    ensures { result ≡ number_of (at b.now scalars (last_stamp_at d)) }
{
    last_stamp(b, d) / 16
}

// The write part of a last transaction that wrote set `s`: the set, its number, then the values,
// ascending.
#[tactic(auto, unfolding(basics::specs::Fold::up_to))]
fn put_write_part(b: &[u64], d: u64, s: u64, out: &mut [u8], at: usize)
    requires { (1 ≤ d) × (d ≤ 8) × (at + 12 + 4 * count s ≤ length out.old) }
    ensures { out.new ≡ sets out.old at
        (write_part b.now d s) }
{
    let number = last_number(b, d);
    put_bytes(out, at, 8, s);
    put_bytes(out, at + 8, 4, number);
    let first = at + 12;
    for k in 0..64 {
        put_written_item(b, d, s, out, first, k);
    }
}

// The lengths of a read part and of a write part of set `s`; 0 where the kind doesn't show it.
fn read_length(kind: u64, s: u64) -> u64
    ensures { result ≡ read_length kind s }
{
    if shows_read(kind) {
        8 + 9 * count(s)
    } else {
        0
    }
}

fn write_length(kind: u64, s: u64) -> u64
    ensures { result ≡ write_length kind s }
{
    if shows_write(kind) {
        12 + 4 * count(s)
    } else {
        0
    }
}

// The read part and the write part of a last transaction of this kind, of set `s`, if it shows it.
fn put_shown_read(b: &[u64], d: u64, kind: u64, s: u64, out: &mut [u8], at: usize)
    requires { (1 ≤ d) × (d ≤ 8) × (at + read_length kind s ≤ length out.old) }
    ensures { out.new ≡ sets out.old at
        (read_shown b.now d kind s) }
{
    if shows_read(kind) {
        put_read_part(b, d, s, out, at);
    }
}

fn put_shown_write(b: &[u64], d: u64, kind: u64, s: u64, out: &mut [u8], at: usize)
    requires { (1 ≤ d) × (d ≤ 8) × (at + write_length kind s ≤ length out.old) }
    ensures { out.new ≡ sets out.old at
        (write_shown b.now d kind s) }
{
    if shows_write(kind) {
        put_write_part(b, d, s, out, at);
    }
}

// The length of the log frame of client `d` (document 01: desk); 0 where no transaction of its has
// ended.
pub fn frame_length(b: &[u64], d: u64) -> u64
    requires { (1 ≤ d) × (d ≤ 8) }
    ensures { result ≡ length (frame_in b.now d) }
{
    let written = last_written_set(b, d);
    let s = last_set(b, d);
    let kind = last_kind(b, d);
    if kind == NONE {
        0
    } else {
        2 + read_length(kind, s) + write_length(kind, written)
    }
}

// Writes the log frame of client `d` to the front of `out`; the bytes past it stay.
pub fn write_frame(b: &[u64], d: u64, out: &mut [u8])
    requires { (1 ≤ d) × (d ≤ 8) × (length (frame_in b.now d) ≤ length out.old) }
    ensures { out.new ≡ frame_in b.now d
        ++ drop (length (frame_in b.now d)) out.old }
{
    let written = last_written_set(b, d);
    let s = last_set(b, d);
    let kind = last_kind(b, d);
    if kind == NONE {
        return;
    }
    let behind = 2 + read_length(kind, s);
    put_head(out, frame_byte(kind), d);
    put_shown_read(b, d, kind, s, out, 2);
    put_shown_write(b, d, kind, written, out, behind as usize);
}
