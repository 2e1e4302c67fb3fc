// Prepares and gets of either kind: each makes one reply join.
ghost use Rattle.std.specs.Prelude.{◌≡◌, ◌<◌, unwrap_or};
ghost use Rattle.protocol.specs.Steps.{version};
ghost use Rattle.deliver_tests.specs.Tests.{none};
ghost use Rattle.deliver.specs.Deliver.{prepare_delivered, get_delivered, first_get_delivered};

use layout::entry::latest;
use messages::send;
use protocol::{Message, Version};
use versions::keep;

// The version is stored, and the reply joins.
#[tactic(auto, unfolding(crate::specs::Deliver::prepare_delivered))]
pub fn prepare(b: &mut [u64], v: Version)
    ensures { b.new ≡ prepare_delivered b.old v }
{
    keep(b, v);
    send(
        b,
        Message::Prepared {
            item: v.item,
            stamp: v.stamp,
        },
    );
}

// The version of `item` with this stamp: the one found, else the initial one, of value 0 and the
// empty set.
fn answer(found: Option<Version>, item: u64, stamp: u64) -> Version
    ensures { result ≡ version item (unwrap_or found none).value stamp
        (unwrap_or found none).set }
{
    let (value, set) = found.map_or((0, 0), |v| (v.value, v.set));
    Version {
        item,
        value,
        stamp,
        set,
    }
}

// The reply to client `d` joins: the version of `item` with this stamp, and the item's latest.
#[tactic(auto, unfolding(crate::specs::Deliver::get_delivered))]
pub fn get(b: &mut [u64], found: Option<Version>, d: u64, item: u64, stamp: u64)
    requires { item < 64 }
    ensures { b.new ≡ get_delivered b.old (unwrap_or found none) d item stamp }
{
    let entry = latest(b, item);
    send(
        b,
        Message::Got {
            client: d,
            version: answer(found, item, stamp),
            latest: entry,
        },
    );
}

// The first reply to client `d` joins: the latest committed version of `item`, and the item's
// latest.
#[tactic(auto, unfolding(crate::specs::Deliver::first_get_delivered))]
pub fn first_get(b: &mut [u64], found: Option<Version>, d: u64, item: u64)
    requires { item < 64 }
    ensures { b.new ≡ first_get_delivered b.old (unwrap_or found none) d item }
{
    let entry = latest(b, item);
    send(
        b,
        Message::FirstReply {
            client: d,
            version: answer(found, item, entry.stamp),
            latest: entry,
        },
    );
}
