// Handing over (document 02, P6) on the block: a client's view takes over what another's holds; and
// how one client's view stands to another's. One pass over the two views each.

#![tactic(auto)]

ghost use Rattle.std.specs.Prelude.{◌≡◌, ◌≤◌, ◌<◌, length};
ghost use Rattle.protocol.specs.HandOver.{standing_by, standing};
ghost use Rattle.layout.specs.Layout.{needed, header, at, clients_at, items_at};
ghost use Rattle.layout.specs.Decode.{tables_of};
ghost use Rattle.hand_over.specs.HandOver.{take_item, handed_over_block};

use layout::entry::{put_view, view};
use start::seen_stamp;

// The receiver's entry of item `k` becomes the later of its own and the giver's.
fn take_item(b: &mut [u64], giver: u64, receiver: u64, k: u64)
    requires { (1 ≤ giver) × (giver ≤ 8) × (1 ≤ receiver) × (receiver ≤ 8) × (k < 64) }
    ensures { b.new ≡ take_item giver receiver b.old k }
{
    let given = view(b, giver, k);
    let entry = view(b, receiver, k).later(given);
    put_view(b, receiver, k, entry);
}

// The giver hands its view of `items` items over to the receiver.
#[tactic(auto, unfolding(basics::specs::Fold::up_to, crate::specs::HandOver::handed_over_block))]
pub fn hand_over(b: &mut [u64], giver: u64, receiver: u64, items: u64)
    requires { (1 ≤ giver) × (giver ≤ 8) × (1 ≤ receiver) × (receiver ≤ 8) × (items ≤ 64) }
    ensures { b.new ≡ handed_over_block b.old giver receiver items }
{
    for k in 0..items {
        take_item(b, giver, receiver, k);
    }
}

// How a view stands to another: 0 same, 1 behind, 2 ahead, 3 neither. `below`: no entry of it is
// later than the other's; `above`: none is earlier.
//
// Stays a number: `compare` promises one (`standing`), and the store's answer has it. An enum would
// be made here and turned into its number by the caller.
fn standing_of(below: bool, above: bool) -> u64
    ensures { result ≡ standing_by below above }
{
    match (below, above) {
        (true, true) => 0,
        (true, false) => 1,
        (false, true) => 2,
        (false, false) => 3,
    }
}

// How the view of client `first` stands to that of client `second`, by stamps alone.
#[tactic(auto, unfolding(basics::specs::Lists::every))]
pub fn compare(b: &[u64], first: u64, second: u64, items: u64) -> u64
    requires { (1 ≤ first) × (first ≤ at b.now header clients_at)
        × (1 ≤ second) × (second ≤ at b.now header clients_at)
        × (at b.now header clients_at ≤ 8) × (items ≤ 64) × (items ≡ at b.now header items_at)
        × (needed ≤ length b.now) }
    ensures { result ≡ standing (tables_of b.now) first second }
{
    let mut below = true;
    let mut above = true;
    for k in 0..items {
        let one = seen_stamp(b, first, k);
        let other = seen_stamp(b, second, k);
        below = below & (one <= other);
        above = above & (other <= one);
    }
    standing_of(below, above)
}
