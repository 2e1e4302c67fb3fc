// Which blocks are valid (refusal 1), and the load and the versions in use of a valid block.

#![tactic(auto)]

ghost use Rattle.std.specs.Prelude.{true, ◌&&◌, ◌≡◌, ◌≤◌, length, leb};
ghost use Rattle.protocol.specs.Range.{sizes_in_range, load, occupied};
ghost use Rattle.layout.specs.Layout.{most_clients, most_items, most_versions, most_messages, needed};
ghost use Rattle.layout.specs.Decode.{tables_of, valid_block};
ghost use Rattle.gather.specs.Sized.{sizes};
ghost use Rattle.range.specs.Block.{tables_test};

mod capacity;
mod entry;

use layout::{MOST_CLIENTS, MOST_ITEMS, MOST_MESSAGES, MOST_PARTITIONS, MOST_VERSIONS, NEEDED};

// There is a size, and no more than `most`.
fn within(size: u64, most: u64) -> bool
    ensures { result ≡ (leb 1 size && leb size most) }
{
    (1..=most).contains(&size)
}

// The sizes are some that 2 allows.
#[tactic(auto, unfolding(protocol::specs::Range::sizes_in_range))]
pub fn sizes_in_range(clients: u64, partitions: u64, items: u64) -> bool
    ensures { result ≡ sizes_in_range (sizes clients partitions items) }
{
    within(clients, MOST_CLIENTS) & within(partitions, MOST_PARTITIONS) & within(items, MOST_ITEMS)
}

// So are they in a header, where there are no more versions and messages than a block holds.
fn header_in_range(clients: u64, partitions: u64, items: u64, versions: u64, messages: u64) -> bool
    ensures { result ≡ (sizes_in_range (sizes clients partitions items) && leb versions most_versions
        && leb messages most_messages) }
{
    sizes_in_range(clients, partitions, items)
        && (versions <= MOST_VERSIONS)
        && (messages <= MOST_MESSAGES)
}

// All that the sizes and counts lead to.
fn tables_in_range(
    b: &[u64],
    clients: u64,
    partitions: u64,
    items: u64,
    versions: u64,
    messages: u64,
) -> bool
    requires { (clients ≤ most_clients) × (1 ≤ partitions) × (1 ≤ items) × (items ≤ most_items)
        × (versions ≤ most_versions) × (messages ≤ most_messages) × (needed ≤ length b.now) }
    ensures { result ≡ tables_test b.now clients partitions items versions messages }
{
    entry::views_in_range(b, clients, items)
        & range_client::clients_in_range(b, clients, items)
        & range_message::versions_in_range(b, versions, clients, items)
        & range_message::messages_in_range(b, messages, clients, partitions, items)
        & (capacity::load_of(b, clients, messages) <= MOST_MESSAGES)
        & capacity::occupied_fits(b, versions, messages)
}

fn long_block(b: &[u64]) -> bool
    requires { needed ≤ length b.now }
    ensures { result ≡ valid_block b.now }
{
    let clients = layout::clients(b);
    let partitions = layout::partitions(b);
    let items = layout::items(b);
    let versions = layout::version_count(b);
    let messages = layout::message_count(b);
    header_in_range(clients, partitions, items, versions, messages)
        && tables_in_range(b, clients, partitions, items, versions, messages)
}

// Whether `b` is not refused by 1. Any words, any number of them.
pub fn valid_block(b: &[u64]) -> bool
    ensures { result ≡ valid_block b.now }
{
    NEEDED <= b.len() && long_block(b)
}

// The load of a valid block.
pub fn load(b: &[u64]) -> u64
    requires { valid_block b.now ≡ true }
    ensures { result ≡ load (tables_of b.now) }
{
    capacity::load_of(b, layout::clients(b), layout::message_count(b))
}

// The versions in use of a valid block.
pub fn occupied(b: &[u64]) -> u64
    requires { valid_block b.now ≡ true }
    ensures { result ≡ occupied (tables_of b.now) }
{
    capacity::occupied_of(b, layout::version_count(b), layout::message_count(b))
}
