// The end of a mixed transaction (document 02, P8): the last ended transaction takes its stamps,
// its answers and its values, the view takes what it wrote, and one commit joins for each partition
// that it touched.
ghost use Rattle.std.specs.Prelude.{◌≡◌, ◌≤◌};
ghost use Rattle.ends.specs.Ends.{mixed_kept, mixed_ended};

use crate::end;
use crate::read::keep_answers;
use crate::write::{keep_values, see, send_commits, touched};
use client_fields::{put_last_stamp, put_last_write_set, set_of, stamp, write_set};
use protocol::kind::MIXED;

// What the client itself keeps of its transaction, with read set `r` and write set `s`.
#[tactic(auto, unfolding(crate::specs::Ends::mixed_kept))]
fn mixed_kept(b: &mut [u64], items: u64, d: u64, r: u64, s: u64, stamp: u64)
    requires { (items ≤ 64) × (1 ≤ d) × (d ≤ 8) }
    ensures { b.new ≡ mixed_kept b.old items d r s stamp }
{
    keep_answers(b, items, d, r);
    keep_values(b, items, d, s);
    end(b, d, MIXED, r);
    put_last_stamp(b, d, stamp);
    put_last_write_set(b, d, s);
    see(b, items, d, s, stamp);
}

// The mixed transaction of client `d` ends.
#[tactic(auto, unfolding(crate::specs::Ends::mixed_ended))]
pub fn mixed_end(b: &mut [u64], partitions: u64, items: u64, d: u64)
    requires { (1 ≤ partitions) × (items ≤ 64) × (1 ≤ d) × (d ≤ 8) }
    ensures { b.new ≡ mixed_ended b.old partitions items d }
{
    let r = set_of(b, d);
    let s = write_set(b, d);
    let stamp = stamp(b, d);
    let ps = touched(partitions, items, s);
    mixed_kept(b, items, d, r, s, stamp);
    send_commits(b, partitions, ps, stamp);
}
