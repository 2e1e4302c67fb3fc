// Ends of transactions on the block: what the last reply does.

#![tactic(auto)]

ghost use Rattle.std.specs.Prelude.{◌≡◌, ◌≤◌};
ghost use Rattle.ends.specs.Ends.{ended};

use client_fields::{put_awaited, put_last_kind, put_last_set, put_mode, put_set};
use layout::IDLE;

pub mod mixed;
pub mod read;
pub mod write;

// A transaction of client `d` with set `s` ends, of this kind. The client is idle, with no set.
fn end(b: &mut [u64], d: u64, kind: u64, s: u64)
    requires { (1 ≤ d) × (d ≤ 8) }
    ensures { b.new ≡ ended b.old d kind s }
{
    put_last_kind(b, d, kind);
    put_last_set(b, d, s);
    put_mode(b, d, IDLE);
    put_set(b, d, 0);
    put_awaited(b, d, 0);
}
