// The end of a read: the last ended transaction takes its stamps and its answers, item by item.
ghost use Rattle.std.specs.Prelude.{◌≡◌, ◌≤◌, ◌<◌};
ghost use Rattle.basics.specs.Fold.{up_to};
ghost use Rattle.ends.specs.Ends.{keep_answer, read_kind, read_ended};

use crate::end;
use client_fields::{asked, mode, put_last_read_stamp, put_last_value, set_of, value};
use itemset::has;
use layout::{FIRST_PART, SECOND_PART};
use protocol::kind::{FAST_READ, READ};

// The last ended transaction takes stamp and value of item `k` of set `s`.
fn keep_answer(b: &mut [u64], d: u64, s: u64, k: u64)
    requires { (1 ≤ d) × (d ≤ 8) × (k < 64) }
    ensures { b.new ≡ keep_answer d s b.old k }
{
    if has(s, k) {
        let stamp = asked(b, d, k);
        let answer = value(b, d, k);
        put_last_read_stamp(b, d, k, stamp);
        put_last_value(b, d, k, answer);
    }
}

#[tactic(auto, unfolding(basics::specs::Fold::up_to))]
pub fn keep_answers(b: &mut [u64], items: u64, d: u64, s: u64)
    requires { (items ≤ 64) × (1 ≤ d) × (d ≤ 8) }
    ensures { b.new ≡ up_to (keep_answer d s) b.old items }
{
    for k in 0..items {
        keep_answer(b, d, s, k);
    }
}

// The kind that a read in this mode ends as: a read, or a fast read.
fn read_kind(mode: u64) -> u64
    ensures { result ≡ read_kind mode }
{
    match mode {
        FIRST_PART | SECOND_PART => FAST_READ,
        _ => READ,
    }
}

// The read of client `d` ends.
#[tactic(auto, unfolding(crate::specs::Ends::read_ended))]
pub fn read_end(b: &mut [u64], items: u64, d: u64)
    requires { (items ≤ 64) × (1 ≤ d) × (d ≤ 8) }
    ensures { b.new ≡ read_ended b.old items d }
{
    let s = set_of(b, d);
    let kind = read_kind(mode(b, d));
    keep_answers(b, items, d, s);
    end(b, d, kind, s);
}
