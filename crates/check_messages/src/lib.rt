// Messages as a check sees them: each awaited item of a client's part has exactly one, and each
// passes the test of its kind.

#![tactic(auto)]

pub mod kinds;

ghost use Rattle.std.specs.Prelude.{true, cond, ◌&&◌, ◌≡◌, ◌%◌, ◌≤◌, ◌<◌, eqb, leb, length};
ghost use Rattle.itemset.specs.Set.{insert64};
ghost use Rattle.protocol.specs.Tables.{awaited_of};
ghost use Rattle.protocol.specs.Message.{of_side, owner_of};
ghost use Rattle.protocol.specs.Check.{one_each};
ghost use Rattle.layout.specs.Layout.{most_messages, needed, header, at, clients_at};
ghost use Rattle.layout.specs.Decode.{kind_in, message_in, tables_of, valid_block};
ghost use Rattle.check_messages.specs.Sides.{side_if};

use range_message::message_word;

// Whether a message of this kind is of client `d`'s write part, or of its read part.
// Stays a bool for the part, here and below: `side_if` takes one, and so does `one_each`'s clause.
fn is_side(kind: u64, who: u64, stamp: u64, write: bool, d: u64) -> bool
    ensures { result ≡ cond write (leb kind 2 && eqb (stamp % 16) d) (leb 4 kind && eqb who d) }
{
    if write {
        (kind <= 2) & (stamp % 16 == d)
    } else {
        (4 <= kind) & (who == d)
    }
}

// Whether message `i` is of client `d`'s write part, or of its read part.
fn is_of(b: &[u64], i: u64, write: bool, d: u64) -> bool
    requires { (i < most_messages) × (needed ≤ length b.now) × (1 ≤ kind_in b.now i)
        × (kind_in b.now i ≤ 7) }
    ensures { result ≡ (of_side (side_if write) (message_in b.now i)
        && eqb (owner_of (message_in b.now i)) d) }
{
    is_side(
        message_word(b, i, 0),
        message_word(b, i, 1),
        message_word(b, i, 4),
        write,
        d,
    )
}

// The items met, with one more if the message is of that part.
fn met(own: bool, seen: u64, item: u64) -> u64
    ensures { result ≡ cond own (insert64 seen item) seen }
{
    if own {
        itemset::insert(seen, item)
    } else {
        seen
    }
}

// Whether each item that this part of client `d` awaits has exactly one message, and no other has.
pub fn one_each(b: &[u64], write: bool, d: u64, awaited: u64) -> bool
    requires { (valid_block b.now ≡ true) × (1 ≤ d) × (d ≤ at b.now header clients_at)
        × (awaited ≡ awaited_of (side_if write) ((tables_of b.now).client d)) }
    ensures { result ≡ one_each (tables_of b.now) (side_if write) d }
{
    let mut ok = true;
    let mut seen = 0;
    for i in 0..layout::message_count(b) {
        let own = is_of(b, i, write, d);
        let item = message_word(b, i, 2);
        ok = ok & !(own & itemset::has(seen, item));
        seen = met(own, seen, item);
    }
    ok & (seen == awaited)
}
