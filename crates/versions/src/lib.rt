// The stored versions: item, value, stamp and set of each, in four words.

#![tactic(auto)]

ghost use Rattle.std.specs.Prelude.{◌≡◌, ◌≤◌, ◌<◌, length};
ghost use Rattle.basics.specs.Lists.{table};
ghost use Rattle.layout.specs.Layout.{most_versions, version_words, needed, at, versions, version_at};
ghost use Rattle.layout.specs.Decode.{version_in};
ghost use Rattle.layout.specs.Store.{store_version, append_version};
ghost use Rattle.protocol.specs.Steps.{alike, stored as stored_in};
ghost use Rattle.slots.specs.Room.{keep};
ghost use Rattle.versions.specs.Found.{first_alike};

use layout::{MOST_VERSIONS, VERSION_WORDS, VERSIONS, put_version_count, version_count};
use protocol::Version;
use slots::put_words;

// Word `f` of the four of version `i`, in a block that is long enough: a search looks at many.
// Stays apart from `word_in`, which tests each place.
fn part(b: &[u64], i: u64, f: u64) -> u64
    requires { (i < most_versions) × (f < version_words) × (needed ≤ length b.now) }
    ensures { result ≡ at b.now versions (version_at i f) }
{
    let place = (VERSIONS + (VERSION_WORDS * i + f)) as usize;
    b[place]
}

// The version at place `i`.
pub fn version(b: &[u64], i: u64) -> Version
    requires { (i < most_versions) × (needed ≤ length b.now) }
    ensures { result ≡ version_in b.now i }
{
    Version {
        item: part(b, i, 0),
        value: part(b, i, 1),
        stamp: part(b, i, 2),
        set: part(b, i, 3),
    }
}

// Its stamp alone.
pub fn stamp_of(b: &[u64], i: u64) -> u64
    requires { (i < most_versions) × (needed ≤ length b.now) }
    ensures { result ≡ (version_in b.now i).stamp }
{
    part(b, i, 2)
}

// Version `v` at place `i`.
#[tactic(auto, unfolding(layout::specs::Store::store_version))]
pub fn put(b: &mut [u64], i: u64, v: Version)
    requires { i < most_versions }
    ensures { b.new ≡ store_version b.old i v }
{
    put_words(
        b,
        VERSIONS + VERSION_WORDS * i,
        [v.item, v.value, v.stamp, v.set],
    );
}

// Version `v` joins the `n` that are there, at the end.
#[tactic(auto, unfolding(layout::specs::Store::append_version))]
pub fn append(b: &mut [u64], n: u64, v: Version)
    requires { n < most_versions }
    ensures { b.new ≡ append_version b.old n v }
{
    put(b, n, v);
    put_version_count(b, n + 1);
}

// Version `v` is stored, where there is room.
#[tactic(auto, unfolding(slots::specs::Room::keep))]
pub fn keep(b: &mut [u64], v: Version)
    ensures { b.new ≡ keep b.old v }
{
    let n = version_count(b);
    if n < MOST_VERSIONS {
        append(b, n, v);
    }
}

// Whether version `i` is of `item` with exactly this `stamp`: most differ in the stamp.
fn is_alike(b: &[u64], i: u64, item: u64, stamp: u64) -> bool
    requires { (i < most_versions) × (needed ≤ length b.now) }
    ensures { result ≡ alike item stamp (version_in b.now i) }
{
    part(b, i, 2) == stamp && part(b, i, 0) == item
}

// The place of the first of `n` versions of `item` with exactly this `stamp`.
pub fn find(b: &[u64], n: u64, item: u64, stamp: u64) -> Option<u64>
    requires { (n ≤ most_versions) × (needed ≤ length b.now) }
    ensures { result ≡ first_alike b.now n item stamp }
{
    for i in 0..n {
        if is_alike(b, i, item, stamp) {
            return Some(i);
        }
    }
    None
}

// Whether one of `n` versions is of `item` with exactly this `stamp`.
pub fn is_stored(b: &[u64], n: u64, item: u64, stamp: u64) -> bool
    requires { (n ≤ most_versions) × (needed ≤ length b.now) }
    ensures { result ≡ stored_in (table n (version_in b.now)) item stamp }
{
    find(b, n, item, stamp).is_some()
}
