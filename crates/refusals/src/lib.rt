// The refusal of each call: that of the first test that applies, in the refusal table's order.

#![tactic(auto)]

ghost use Rattle.std.specs.Prelude.{true, not, ◌&&◌, ◌||◌, ◌+◌, ◌*◌, ◌≡◌, ◌≤◌, eqb, ltb, length};
ghost use Rattle.itemset.specs.Set.{all_below, count};
ghost use Rattle.protocol.specs.declared.refusal.Refusal.{Refusal};
ghost use Rattle.protocol.specs.Refusal.{refused_by};
ghost use Rattle.protocol.specs.Range.{is_client, load, occupied};
ghost use Rattle.protocol.specs.Check.{sound};
ghost use Rattle.protocol.specs.Calls.{start_read, start_write, start_mixed, show, clear, hand_over};
ghost use Rattle.protocol.specs.Calls.{compare, check, first};
ghost use Rattle.layout.specs.Layout.{most_versions, most_messages, most_write_items, header, scalars};
ghost use Rattle.layout.specs.Layout.{at, items_at, mode_at, last_kind_at};
ghost use Rattle.layout.specs.Decode.{sizes_in, tables_of, valid_block};
ghost use Rattle.gather.specs.Sized.{sizes};
ghost use Rattle.start.specs.Start.{greatest_on};
ghost use Rattle.show.specs.Show.{frame_in};
ghost use Rattle.block_calls.specs.Calls.{fresh_refusal_on, refusal_on};
ghost use Rattle.refusals.specs.Tested.{Tested, later_write_tests};

use client_fields::{last_kind, mode};
use itemset::{all_below, count};
use layout::{IDLE, MOST_MESSAGES, MOST_VERSIONS, MOST_WRITE_ITEMS, NEEDED};
use protocol::kind::NONE;
use protocol::refusal::Refusal;
use range::{load, occupied, sizes_in_range, valid_block};
use show::frame_length;
use start::greatest;

// One test.
fn refuse(applies: bool, refusal: Refusal) -> Result<(), Refusal>
    ensures { Tested applies refusal result }
{
    if applies { Err(refusal) } else { Ok(()) }
}

// 1: the block isn't valid.
fn valid(b: &[u64]) -> Result<(), Refusal>
    ensures { Tested (not (valid_block b.now)) Refusal.InvalidBlock result }
{
    refuse(!valid_block(b), Refusal::InvalidBlock)
}

// 3: the client doesn't exist.
fn client(b: &[u64], d: u64) -> Result<(), Refusal>
    ensures { Tested (not (is_client (sizes_in b.now) d)) Refusal.NoSuchClient result }
{
    let exists = (1 <= d) & (d <= layout::clients(b));
    refuse(!exists, Refusal::NoSuchClient)
}

// 3: one of two clients doesn't exist.
fn clients(b: &[u64], d: u64, e: u64) -> Result<(), Refusal>
    ensures { Tested (not (is_client (sizes_in b.now) d && is_client (sizes_in b.now) e))
        Refusal.NoSuchClient result }
{
    client(b, d)?;
    client(b, e)
}

// 4: the client isn't idle.
fn idle(b: &[u64], d: u64) -> Result<(), Refusal>
    requires { (1 ≤ d) × (d ≤ 8) }
    ensures { Tested (not (eqb (at b.now scalars (mode_at d)) 0)) Refusal.ClientBusy result }
{
    refuse(mode(b, d) != IDLE, Refusal::ClientBusy)
}

// 4: one of two clients isn't idle.
fn both_idle(b: &[u64], d: u64, e: u64) -> Result<(), Refusal>
    requires { (1 ≤ d) × (d ≤ 8) × (1 ≤ e) × (e ≤ 8) }
    ensures { Tested (not (eqb (at b.now scalars (mode_at d)) 0
        && eqb (at b.now scalars (mode_at e)) 0)) Refusal.ClientBusy result }
{
    idle(b, d)?;
    idle(b, e)
}

// 5: the set is empty, or holds an item that doesn't exist.
fn item_set(b: &[u64], s: u64) -> Result<(), Refusal>
    ensures { Tested (eqb s 0 || not (all_below s (at b.now header items_at))) Refusal.BadSet
        result }
{
    refuse((s == 0) | !all_below(s, layout::items(b)), Refusal::BadSet)
}

// 6: not four bytes of value for each item.
fn values(bytes: &[u8], items: u64) -> Result<(), Refusal>
    requires { items ≤ 64 }
    ensures { Tested (not (eqb (length bytes.now) (4 * items))) Refusal.BadValues result }
{
    refuse(bytes.len() as u64 != 4 * items, Refusal::BadValues)
}

// 17: more items than a write may have.
fn narrow(items: u64) -> Result<(), Refusal>
    ensures { Tested (ltb most_write_items items) Refusal.TooManyItems result }
{
    refuse(MOST_WRITE_ITEMS < items, Refusal::TooManyItems)
}

// 7: the greatest number that the client knows is the last one.
fn number_left(b: &[u64], d: u64) -> Result<(), Refusal>
    requires { (valid_block b.now ≡ true) × (is_client (sizes_in b.now) d ≡ true) }
    ensures { Tested (eqb (greatest_on b.now d (at b.now header items_at)) 4294967295)
        Refusal.NumbersSpent result }
{
    let spent = greatest(b, d, layout::items(b)) == 4294967295;
    refuse(spent, Refusal::NumbersSpent)
}

// 8: with those that join there are more messages than a block holds.
fn message_room(b: &[u64], joining: u64) -> Result<(), Refusal>
    requires { (valid_block b.now ≡ true) × (joining ≤ most_messages) }
    ensures { Tested (ltb most_messages (load (tables_of b.now) + joining)) Refusal.MessagesFull
        result }
{
    refuse(MOST_MESSAGES < load(b) + joining, Refusal::MessagesFull)
}

// 9: with those of the items there are more versions than a block holds.
fn version_room(b: &[u64], items: u64) -> Result<(), Refusal>
    requires { (valid_block b.now ≡ true) × (items ≤ 64) }
    ensures { Tested (ltb most_versions (occupied (tables_of b.now) + items)) Refusal.VersionsFull
        result }
{
    refuse(MOST_VERSIONS < occupied(b) + items, Refusal::VersionsFull)
}

// 13: no transaction has ended.
fn ended(b: &[u64], d: u64) -> Result<(), Refusal>
    requires { (1 ≤ d) × (d ≤ 8) }
    ensures { Tested (eqb (at b.now scalars (last_kind_at d)) 0) Refusal.NothingEnded result }
{
    refuse(last_kind(b, d) == NONE, Refusal::NothingEnded)
}

// 14: the output is too short for the frame.
fn frame_room(b: &[u64], d: u64, out: &[u8]) -> Result<(), Refusal>
    requires { (1 ≤ d) × (d ≤ 8) }
    ensures { Tested (ltb (length out.now) (length (frame_in b.now d))) Refusal.OutputShort result }
{
    refuse(
        (out.len() as u64) < frame_length(b, d),
        Refusal::OutputShort,
    )
}

// 18: giver and receiver are the same.
fn different(giver: u64, receiver: u64) -> Result<(), Refusal>
    ensures { Tested (eqb giver receiver) Refusal.GiverIsReceiver result }
{
    refuse(giver == receiver, Refusal::GiverIsReceiver)
}

// 19: the block breaks a rule of document 02's P9.
fn sound(b: &[u64]) -> Result<(), Refusal>
    requires { valid_block b.now ≡ true }
    ensures { Tested (not (sound (tables_of b.now))) Refusal.NotSound result }
{
    refuse(!check_block::check(b), Refusal::NotSound)
}

// 2 for sizes out of range, 1 for a block that is too short.
pub fn of_fresh(b: &[u64], clients: u64, partitions: u64, items: u64) -> Result<(), Refusal>
    ensures { refused_by result ≡ fresh_refusal_on b.now (sizes clients partitions items) }
{
    refuse(
        !sizes_in_range(clients, partitions, items),
        Refusal::BadSizes,
    )?;
    refuse(b.len() < NEEDED, Refusal::InvalidBlock)
}

pub fn of_read(b: &[u64], d: u64, s: u64) -> Result<(), Refusal>
    ensures { refused_by result ≡ refusal_on b.now (start_read d s) }
{
    valid(b)?;
    client(b, d)?;
    idle(b, d)?;
    item_set(b, s)?;
    message_room(b, count(s))
}

// A write of set `s`, alone or in a mixed transaction, that its client may begin: how many messages
// would join.
fn of_writing(b: &[u64], d: u64, s: u64, bytes: &[u8], joining: u64) -> Result<(), Refusal>
    requires { (valid_block b.now ≡ true) × (is_client (sizes_in b.now) d ≡ true)
        × (joining ≤ most_messages) }
    ensures { refused_by result
        ≡ first (later_write_tests b.now d s bytes.now joining) }
{
    let items = count(s);
    values(bytes, items)?;
    narrow(items)?;
    number_left(b, d)?;
    message_room(b, joining)?;
    version_room(b, items)
}

pub fn of_write(b: &[u64], d: u64, s: u64, bytes: &[u8]) -> Result<(), Refusal>
    ensures { refused_by result ≡ refusal_on b.now (start_write d s bytes.now) }
{
    valid(b)?;
    client(b, d)?;
    idle(b, d)?;
    item_set(b, s)?;
    of_writing(b, d, s, bytes, count(s))
}

pub fn of_mixed(b: &[u64], d: u64, r: u64, s: u64, bytes: &[u8]) -> Result<(), Refusal>
    ensures { refused_by result ≡ refusal_on b.now (start_mixed d r s bytes.now) }
{
    valid(b)?;
    client(b, d)?;
    idle(b, d)?;
    item_set(b, r)?;
    item_set(b, s)?;
    of_writing(b, d, s, bytes, count(r) + count(s))
}

pub fn of_show(b: &[u64], d: u64, out: &[u8]) -> Result<(), Refusal>
    ensures { refused_by result ≡ refusal_on b.now (show d out.now) }
{
    valid(b)?;
    client(b, d)?;
    idle(b, d)?;
    ended(b, d)?;
    frame_room(b, d, out)
}

// Nothing but 1: a valid block is cleared.
pub fn of_clear(b: &[u64]) -> Result<(), Refusal>
    ensures { refused_by result ≡ refusal_on b.now clear }
{
    valid(b)
}

pub fn of_hand_over(b: &[u64], giver: u64, receiver: u64) -> Result<(), Refusal>
    ensures { refused_by result ≡ refusal_on b.now (hand_over giver receiver) }
{
    valid(b)?;
    clients(b, giver, receiver)?;
    different(giver, receiver)?;
    both_idle(b, giver, receiver)
}

// Busy and equal clients are compared.
pub fn of_compare(b: &[u64], first: u64, second: u64) -> Result<(), Refusal>
    ensures { refused_by result ≡ refusal_on b.now (compare first second) }
{
    valid(b)?;
    clients(b, first, second)
}

pub fn of_check(b: &[u64]) -> Result<(), Refusal>
    ensures { refused_by result ≡ refusal_on b.now check }
{
    valid(b)?;
    sound(b)
}
