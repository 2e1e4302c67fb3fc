// Deliveries on the block: the message is taken out, later ones move up, and it does its work.

#![tactic(auto)]

ghost use Rattle.std.specs.Prelude.{◌≡◌, ◌≤◌, ◌<◌, length, unwrap_or};
ghost use Rattle.layout.specs.Layout.{most_versions, most_messages, needed};
ghost use Rattle.layout.specs.Store.{take_out};
ghost use Rattle.deliver_tests.specs.Tests.{Bounded, none};
ghost use Rattle.deliver.specs.Deliver.{message_delivered};

use commit::commit;
use messages::take_out;
use protocol::{Message, Version};

pub mod replies;
pub mod requests;

// What a block's header says of partitions, items and stored versions.
#[derive(Drop)]
pub struct Counts {
    pub partitions: u64,
    pub items: u64,
    pub versions: u64,
}

// The work of message `m`, taken out before; a get is answered with `found`, or the initial
// version.
#[tactic(auto, unfolding(crate::specs::Deliver::message_delivered))]
fn work(b: &mut [u64], counts: Counts, found: Option<Version>, m: Message)
    requires { (1 ≤ counts.partitions) × (counts.partitions ≤ 8) × (counts.items ≤ 64)
        × (counts.versions ≤ most_versions) × Bounded m × (needed ≤ length b.old) }
    ensures { b.new ≡ message_delivered b.old counts (unwrap_or found none) m }
{
    match m {
        Message::Prepare(v) => requests::prepare(b, v),
        Message::Prepared { item, stamp } => replies::prepared(
            b,
            counts.partitions,
            counts.items,
            item,
            stamp,
        ),
        Message::Commit { partition, stamp } => commit(
            b,
            counts.partitions,
            counts.versions,
            partition,
            stamp,
        ),
        Message::Get {
            client,
            item,
            stamp,
        } => requests::get(b, found, client, item, stamp),
        Message::Got {
            client,
            version,
            latest,
        } => replies::got(b, counts.partitions, counts.items, client, version, latest),
        Message::FirstGet { client, item } => requests::first_get(b, found, client, item),
        Message::FirstReply {
            client,
            version,
            latest,
        } => replies::first_reply(b, counts.items, client, version, latest),
    }
}

// Of `n` messages the one at place `i`, which is `m`, is delivered; a get is answered with `found`,
// or the initial version.
pub fn deliver_message(
    b: &mut [u64],
    n: u64,
    i: u64,
    counts: Counts,
    found: Option<Version>,
    m: Message,
)
    requires i_lt_n { (i < n) × (n ≤ most_messages) × (needed ≤ length b.old) }
    requires le_partitions { (1 ≤ counts.partitions) × (counts.partitions ≤ 8) × (counts.items ≤ 64)
        × (counts.versions ≤ most_versions) × Bounded m }
    ensures { b.new ≡ message_delivered (take_out b.old n i)
        counts (unwrap_or found none) m }
{
    take_out(b, n, i);
    work(b, counts, found, m);
}
