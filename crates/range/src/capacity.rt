// The load (messages in flight, prepared replies that have come to clients still writing, and first
// replies that have come in the first part of a fast read), and the versions in use (stored, and in
// prepares).
ghost use Rattle.std.specs.Prelude.{cond, ◌≡◌, ◌+◌, ◌-◌, ◌*◌, ◌≤◌, ◌<◌, length, leb};
ghost use Rattle.basics.specs.Lists.{counted, table};
ghost use Rattle.itemset.specs.Set.{count};
ghost use Rattle.protocol.specs.Message.{is_prepare};
ghost use Rattle.protocol.specs.Range.{arrived, total};
ghost use Rattle.layout.specs.Layout.{most_clients, most_items, most_versions, most_messages, needed};
ghost use Rattle.layout.specs.Decode.{client_in, message_in};

use layout::{FIRST_PART, MIXING, MOST_VERSIONS, WRITING};
use protocol::message_kind::PREPARE;
use range_message::message_word;

// How many of the items of `set` are no longer awaited.
fn come(set: u64, awaited: u64) -> u64
    ensures value { result ≡ count set - count awaited }
    ensures upper_bound { result ≤ most_items }
{
    itemset::count(set).saturating_sub(itemset::count(awaited))
}

// The prepared replies that have come to client `d`, which writes, in a mixed transaction too, or
// the first replies, in the first part of a fast read.
fn arrived_at(b: &[u64], d: u64) -> u64
    requires { (1 ≤ d) × (d ≤ most_clients) }
    ensures value { result ≡ arrived (client_in b.now d) }
    ensures upper_bound { result ≤ most_items }
{
    match client_fields::mode(b, d) {
        WRITING | FIRST_PART => come(client_fields::set_of(b, d), client_fields::awaited(b, d)),
        MIXING => come(
            client_fields::write_set(b, d),
            client_fields::write_awaited(b, d),
        ),
        _ => 0,
    }
}

fn arrived_all(b: &[u64], clients: u64) -> u64
    requires { clients ≤ most_clients }
    ensures value { result ≡ total clients (λ d. arrived (client_in b.now d)) }
    ensures upper_bound { result ≤ most_items * clients }
{
    let mut sum = 0;
    for i in 0..clients {
        sum += arrived_at(b, i + 1);
    }
    sum
}

// The load of a block with so many clients and messages.
pub fn load_of(b: &[u64], clients: u64, messages: u64) -> u64
    requires { (clients ≤ most_clients) × (messages ≤ most_messages) }
    ensures { result ≡ messages + total clients (λ d. arrived (client_in b.now d)) }
{
    messages + arrived_all(b, clients)
}

// 1 where message `i` is a prepare.
fn prepare_at(b: &[u64], i: u64) -> u64
    requires { (i < most_messages) × (needed ≤ length b.now) }
    ensures value { result ≡ cond (is_prepare (message_in b.now i)) 1 0 }
    ensures upper_bound { result ≤ 1 }
{
    u64::from(message_word(b, i, 0) == PREPARE)
}

fn prepares(b: &[u64], messages: u64) -> u64
    requires { (messages ≤ most_messages) × (needed ≤ length b.now) }
    ensures value { result ≡ counted is_prepare (table messages (message_in b.now)) }
    ensures upper_bound { result ≤ messages }
{
    let mut sum = 0;
    for i in 0..messages {
        sum += prepare_at(b, i);
    }
    sum
}

// The versions in use of a block with so many stored versions and messages.
pub fn occupied_of(b: &[u64], versions: u64, messages: u64) -> u64
    requires { (versions ≤ most_versions) × (messages ≤ most_messages)
        × (needed ≤ length b.now) }
    ensures { result ≡ versions + counted is_prepare
        (table messages (message_in b.now)) }
{
    versions + prepares(b, messages)
}

// Whether they are no more than a block holds. Prepares are counted only where all the messages
// would be too many.
pub fn occupied_fits(b: &[u64], versions: u64, messages: u64) -> bool
    requires { (versions ≤ most_versions) × (messages ≤ most_messages)
        × (needed ≤ length b.now) }
    ensures { result ≡ leb (versions + counted is_prepare
        (table messages (message_in b.now))) most_versions }
{
    versions + messages <= MOST_VERSIONS || occupied_of(b, versions, messages) <= MOST_VERSIONS
}
