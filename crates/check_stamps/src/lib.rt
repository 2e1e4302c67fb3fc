// The stamps of a valid block found by their links, and its versions by item and stamp: what a check
// asks of a stamp or of a version is told by one look.

#![tactic(auto)]

ghost use Rattle.std.specs.Prelude.{true, cond, ◌≡◌, ◌≢◌, ◌≤◌, ◌<◌, eqb, length};
ghost use Rattle.basics.specs.Lists.{table};
ghost use Rattle.protocol.specs.Steps.{stored};
ghost use Rattle.protocol.specs.Check.{stored_value, write_set, written_by};
ghost use Rattle.layout.specs.Layout.{most_clients, most_items, most_versions};
ghost use Rattle.layout.specs.Decode.{client_in, tables_of, valid_block};
ghost use Rattle.index.specs.Index.{place};
ghost use Rattle.check_stamps.specs.Stamps.{key_of, key_in, under_way, client_held, version_held};
ghost use Rattle.check_stamps.specs.Stamps.{most_held, held_in, held_stamp, Keyed, Held};
ghost use Rattle.check_stamps.specs.Stamps.{stamps_end};

use index::find;
use layout::{MOST_CLIENTS, MOST_ITEMS, MOST_VERSIONS};
use protocol::Entry;
use versions::version;

// As many keys as there may be versions, and as many holders with two for each client.
pub const KEYS: usize = MOST_VERSIONS as usize;

pub const HELD: usize = KEYS + 2 * MOST_CLIENTS as usize;

// The versions of a valid block by their keys, which are found by links. The fact is truncated,
// since more than one count of turns may reach a key (proofs/Truncated).
#[derive(Clone, Copy)]
pub struct Versions<'a> {
    pub b: &'a [u64],
    pub keys: &'a [u64],
    pub links: &'a [u64],
    pub ghost keyed: { ∥ Keyed b.now keys.now links.now ∥₁ },
}

// The holders of a stamp's set in a valid block by their stamps, which are found by links.
// Truncated likewise.
#[derive(Clone, Copy)]
pub struct Stamps<'a> {
    pub b: &'a [u64],
    pub stamps: &'a [u64],
    pub links: &'a [u64],
    pub ghost held: { ∥ Held b.now stamps.now links.now ∥₁ },
}

// ---- versions

// The key of a version of item `k` with this stamp.
fn key_of(k: u64, stamp: u64) -> u64
    requires { (k < most_items) × (stamp < stamps_end) }
    ensures { result ≡ key_of k stamp }
{
    MOST_ITEMS * stamp + k + 1
}

// The key of stored version `i`, 0 where there is none.
// Stays a 0: keys are a table of plain words (`key_in`), in which no key of a version is 0.
fn key_at(b: &[u64], i: u64) -> u64
    requires { (valid_block b.now ≡ true) × (i < most_versions) }
    ensures { result ≡ key_in b.now i }
{
    if i < layout::version_count(b) {
        let v = version(b, i);
        key_of(v.item, v.stamp)
    } else {
        0
    }
}

// The keys of all versions.
pub fn gather_keys(b: &[u64], keys: &mut [u64])
    requires { (valid_block b.now ≡ true) × (length keys.old ≡ most_versions) }
    ensures { keys.new ≡ table most_versions (key_in b.now) }
{
    for (p, key) in keys.iter_mut().enumerate() {
        *key = key_at(b, p as u64);
    }
}

impl Versions<'_> {
    // The value of the first version of item `k` with this stamp.
    fn value(&self, k: u64, stamp: u64) -> Option<u64>
        requires { (k < most_items) × (stamp < stamps_end) }
        ensures { result ≡ cond (stored (tables_of self.now.b.now).versions k stamp)
            (Some (stored_value (tables_of self.now.b.now) k stamp)) None }
    {
        let place = find(self.keys, self.links, key_of(k, stamp)) as u64;
        if place < MOST_VERSIONS {
            Some(version(self.b, place).value)
        } else {
            None
        }
    }

    // Whether such a version is stored.
    pub fn is_stored(&self, k: u64, stamp: u64) -> bool
        requires { (k < most_items) × (stamp < stamps_end) }
        ensures { result ≡ stored (tables_of self.now.b.now).versions k stamp }
    {
        self.value(k, stamp).is_some()
    }

    // Its value, 0 where there is none.
    pub fn stored_value(&self, k: u64, stamp: u64) -> u64
        requires { (k < most_items) × (stamp < stamps_end) }
        ensures { result ≡ stored_value (tables_of self.now.b.now) k stamp }
    {
        self.value(k, stamp).unwrap_or(0)
    }

    // Whether it has this value; `missing` where there is none.
    pub fn holds(&self, k: u64, stamp: u64, value: u64, missing: bool) -> bool
        requires { (k < most_items) × (stamp < stamps_end) }
        ensures { result ≡ cond (stored (tables_of self.now.b.now).versions k stamp)
            (eqb (stored_value (tables_of self.now.b.now) k stamp) value) missing }
    {
        self.value(k, stamp).map_or(missing, |held| held == value)
    }
}

// ---- holders of a stamp's set

// The holder at place `p` of the versions' places.
// Stays the initial entry where there is none: `held_in` says so, and stamps are plain words.
fn version_held(b: &[u64], p: u64) -> Entry
    requires { (valid_block b.now ≡ true) × (p < most_versions) }
    ensures { result ≡ version_held b.now p }
{
    if p < layout::version_count(b) {
        let v = version(b, p);
        Entry {
            stamp: v.stamp,
            set: v.set,
        }
    } else {
        Entry { stamp: 0, set: 0 }
    }
}

// Of client `d`'s write under way, and of its last ended write.
fn under_way(b: &[u64], d: u64) -> Entry
    requires { (1 ≤ d) × (d ≤ most_clients) }
    ensures { result ≡ under_way (client_in b.now d) }
{
    let set = client_parts::write_set(b, d);
    if set == 0 {
        Entry { stamp: 0, set: 0 }
    } else {
        Entry {
            stamp: client_parts::write_stamp(b, d),
            set,
        }
    }
}

fn last_ended(b: &[u64], d: u64) -> Entry
    requires { (1 ≤ d) × (d ≤ most_clients) }
    ensures { result ≡ written_by (client_in b.now d).last.write }
{
    Entry {
        stamp: client_parts::last_write_stamp(b, d),
        set: client_parts::last_write_set(b, d),
    }
}

fn client_held(b: &[u64], q: u64) -> Entry
    requires { valid_block b.now ≡ true }
    ensures { result ≡ client_held b.now q }
{
    let i = q / 2;
    let clients = layout::clients(b);
    if clients <= i {
        return Entry { stamp: 0, set: 0 };
    }
    if q % 2 == 0 {
        return under_way(b, i + 1);
    }
    last_ended(b, i + 1)
}

// The holder at place `p`; behind the last there is none.
pub fn held(b: &[u64], p: u64) -> Entry
    requires { valid_block b.now ≡ true }
    ensures { result ≡ held_in b.now p }
{
    if p < MOST_VERSIONS {
        version_held(b, p)
    } else {
        client_held(b, p - MOST_VERSIONS)
    }
}

// The stamps of all holders.
pub fn gather_stamps(b: &[u64], stamps: &mut [u64])
    requires { (valid_block b.now ≡ true) × (length stamps.old ≡ most_held) }
    ensures { stamps.new ≡ table most_held (held_stamp b.now) }
{
    for (p, stamp) in stamps.iter_mut().enumerate() {
        *stamp = held(b, p as u64).stamp;
    }
}

impl Stamps<'_> {
    // The write set of a stamp that isn't initial.
    pub fn set_of_stamp(&self, stamp: u64) -> u64
        requires { stamp ≢ 0 }
        ensures { result ≡ write_set (tables_of self.now.b.now) stamp }
    {
        let place = find(self.stamps, self.links, stamp) as u64;
        held(self.b, place).set
    }
}
