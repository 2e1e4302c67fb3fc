// Clients as a check sees them: the first replies that a fast read keeps, and writes under way.

#![tactic(auto)]

ghost use Rattle.std.specs.Prelude.{not, ◌||◌, ◌≡◌, ◌≤◌, ◌<◌};
ghost use Rattle.basics.specs.Lists.{every};
ghost use Rattle.itemset.specs.Set.{has};
ghost use Rattle.protocol.specs.Range.{each};
ghost use Rattle.protocol.specs.Check.{answered_again, is_stamped};
ghost use Rattle.layout.specs.Layout.{most_clients, most_items, header, at, clients_at, items_at};
ghost use Rattle.layout.specs.Decode.{client_in, tables_of};
ghost use Rattle.check_stamps.specs.Parts.{good_first, good_item};

use check_entries::Looks;
use check_stamps::Versions;
use client_parts::SECOND_STAGE;

// Whether item `k`'s second answer has come, in place of a first reply with this stamp.
fn answered_again(b: &[u64], d: u64, k: u64, stamp: u64) -> bool
    requires { (1 ≤ d) × (d ≤ most_clients) × (k < most_items)
        × (stamp ≡ ((client_in b.now d).read.firsts k).stamp) }
    ensures { result ≡ answered_again (client_in b.now d).read k }
{
    let stage = client_parts::stage(b, d);
    let awaited = client_parts::read_awaited(b, d);
    let asked = client_parts::asked(b, d, k);
    (stage == SECOND_STAGE) & !itemset::has(awaited, k) & (asked != stamp)
}

// Item `k` of client `d`'s write under way, which has this stamp.
fn good_item(versions: &Versions, d: u64, stamp: u64, k: u64) -> bool
    requires { (1 ≤ d) × (d ≤ at versions.now.b.now header clients_at)
        × (k < at versions.now.b.now header items_at)
        × (stamp ≡ (client_in versions.now.b.now d).write.stamp) }
    ensures { result ≡ good_item (tables_of versions.now.b.now) d k }
{
    let awaited = client_parts::write_awaited(versions.b, d);
    let value = client_parts::write_value(versions.b, d, k);
    versions.holds(k, stamp, value, itemset::has(awaited, k))
}

// The stamp of a write under way is of its own client and count.
pub fn good_stamp(b: &[u64], d: u64) -> bool
    requires { (1 ≤ d) × (d ≤ at b.now header clients_at) × (at b.now header clients_at ≤ most_clients)
        × ((client_in b.now d).count < 4294967296) }
    ensures { result ≡ is_stamped ((tables_of b.now).client d) d }
{
    let set = client_parts::write_set(b, d);
    let stamp = client_parts::write_stamp(b, d);
    let count = client_fields::count(b, d);
    (set == 0) | (stamp == count * 16 + d)
}

// Item `k` of a write with this set and stamp, if it is in the set.
fn set_item(versions: &Versions, d: u64, set: u64, stamp: u64, k: u64) -> bool
    requires { (1 ≤ d) × (d ≤ at versions.now.b.now header clients_at)
        × (k < at versions.now.b.now header items_at)
        × (stamp ≡ (client_in versions.now.b.now d).write.stamp) }
    ensures { result ≡ (not (has set k) || good_item (tables_of versions.now.b.now) d k) }
{
    !itemset::has(set, k) || good_item(versions, d, stamp, k)
}

// All items of client `d`'s write under way.
pub fn good_items(versions: &Versions, d: u64) -> bool
    requires { (1 ≤ d) × (d ≤ at versions.now.b.now header clients_at) }
    ensures { result ≡ each (tables_of versions.now.b.now).sizes
        (client_in versions.now.b.now d).write.set (good_item (tables_of versions.now.b.now) d) }
{
    let set = client_parts::write_set(versions.b, d);
    let stamp = client_parts::write_stamp(versions.b, d);
    (0..layout::items(versions.b)).all(|k| set_item(versions, d, set, stamp, k))
}

// The first reply that client `d` keeps of item `k`, if it has come.
fn good_first(looks: &Looks, d: u64, k: u64) -> bool
    requires { (1 ≤ d) × (d ≤ at looks.now.wholes.stamps.b.now header clients_at)
        × (k < at looks.now.wholes.stamps.b.now header items_at) }
    ensures { result ≡ good_first (tables_of looks.now.wholes.stamps.b.now) d k }
{
    let b = looks.wholes.stamps.b;
    if !client_parts::has_first(b, d, k) {
        return true;
    }
    let e = layout::entry::first(b, d, k);
    let value = client_parts::answer(b, d, k);
    let held = looks.versions.stored_value(k, e.stamp);
    let again = answered_again(b, d, k, e.stamp);
    looks.wholes.good_entry(k, e) & (again | (value == held))
}

// All first replies that client `d` keeps.
pub fn good_firsts(looks: &Looks, d: u64) -> bool
    requires { (1 ≤ d) × (d ≤ at looks.now.wholes.stamps.b.now header clients_at) }
    ensures { result ≡ every (at looks.now.wholes.stamps.b.now header items_at)
        (good_first (tables_of looks.now.wholes.stamps.b.now) d) }
{
    (0..layout::items(looks.wholes.stamps.b)).all(|k| good_first(looks, d, k))
}
