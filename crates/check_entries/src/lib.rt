// The entries of views and latest, and the holders of a stamp's set, as a check sees them: stamps that
// are whole or initial, sets that agree and have the item, numbers that are counted, and no two stored
// versions alike.

#![tactic(auto)]

ghost use Rattle.std.specs.Prelude.{◌&&◌, ◌≢◌, ◌≡◌, suc, ◌≤◌, ◌<◌, eqb, length};
ghost use Rattle.basics.specs.Lists.{table, every, all};
ghost use Rattle.protocol.specs.Range.{each};
ghost use Rattle.protocol.specs.Steps.{stored};
ghost use Rattle.protocol.specs.Check.{write_set, is_whole, whole_or_initial, is_counted, agrees};
ghost use Rattle.protocol.specs.Check.{sets_held, distinct};
ghost use Rattle.layout.specs.Layout.{most_versions, header, at, clients_at, versions_at};
ghost use Rattle.layout.specs.Layout.{items_at};
ghost use Rattle.layout.specs.Decode.{tables_of};
ghost use Rattle.index.specs.Index.{place};
ghost use Rattle.check_stamps.specs.Stamps.{stamps_end, held_in, key_in};
ghost use Rattle.check_stamps.specs.Parts.{good_ask, good_entry, good_entries, good_holders};
ghost use Rattle.check_entries.specs.Entries.{whole_mark, Ranged};

use check_stamps::{HELD, Stamps, Versions, held};
use index::find;
use protocol::Entry;

// The stamps and the versions of one block.
#[derive(Clone, Copy)]
pub struct Tables<'a> {
    pub stamps: Stamps<'a>,
    pub versions: Versions<'a>,
    pub ghost same: { versions.b.now ≡ stamps.b.now },
}

// The stamps, with a mark at the first place of each that is whole.
#[derive(Clone, Copy)]
pub struct Wholes<'a> {
    pub stamps: Stamps<'a>,
    pub marks: &'a [u64],
    pub ghost whole: { marks.now ≡ table most_versions (whole_mark stamps.b.now) },
}

// All that a check looks in: these, and the versions of the same block.
#[derive(Clone, Copy)]
pub struct Looks<'a> {
    pub wholes: Wholes<'a>,
    pub versions: Versions<'a>,
    pub ghost same: { versions.b.now ≡ wholes.stamps.b.now },
}

// Whether every item of `set` has a stored version with this stamp; the first that has none ends it.
// Stays a while: each turn goes to the set's next member, and no index is counted.
fn all_stored(versions: &Versions, set: u64, stamp: u64) -> bool
    requires { stamp < stamps_end }
    ensures { result ≡ each (tables_of versions.now.b.now).sizes set
        (λ k. stored (tables_of versions.now.b.now).versions k stamp) }
{
    let items = layout::items(versions.b);
    let mut k = itemset::least_from(set, 0);
    while k < items {
        if !versions.is_stored(k, stamp) {
            return false;
        }
        k = itemset::least_from(set, k + 1);
    }
    true
}

impl Tables<'_> {
    // The mark of the holder at place `p`: 1 where its stamp is whole and this is its first place.
    // Stays a word: `whole_mark` and its table are of numbers, as the edit whole_by_one is.
    fn whole_mark(&self, p: u64) -> u64
        requires { p < most_versions }
        ensures { result ≡ whole_mark self.now.stamps.b.now p }
    {
        let e = held(self.stamps.b, p);
        if e.stamp == 0 {
            return 0;
        }
        let first = find(self.stamps.stamps, self.stamps.links, e.stamp) as u64;
        if first != p {
            return 0;
        }
        all_stored(&self.versions, e.set, e.stamp) as u64
    }

    // The marks of all places of versions.
    pub fn gather_wholes(&self, marks: &mut [u64])
        requires { length marks.old ≡ most_versions }
        ensures { marks.new ≡ table most_versions (whole_mark self.now.stamps.b.now) }
    {
        for (p, mark) in marks.iter_mut().enumerate() {
            *mark = self.whole_mark(p as u64);
        }
    }

    // All holders, and all stored versions.
    pub fn holders(&self) -> bool
        ensures { result ≡ good_holders (tables_of self.now.stamps.b.now) }
    {
        good_holders(&self.stamps) & all_first(&self.versions)
    }
}

// Whether a stamp's number isn't above its client's count.
pub fn is_counted(b: &[u64], stamp: u64) -> bool
    requires { (stamp ≢ 0) × Ranged b.now stamp × (at b.now header clients_at ≤ 8) }
    ensures { result ≡ is_counted (tables_of b.now) stamp }
{
    stamp / 16 <= client_fields::count(b, stamp % 16)
}

impl Wholes<'_> {
    // Whether a stamp that isn't initial and has this place is whole.
    fn is_whole(&self, stamp: u64, p: usize) -> bool
        requires { (stamp ≢ 0) × (p ≡ place self.now.stamps.stamps.now stamp) }
        ensures { result ≡ is_whole (tables_of self.now.stamps.b.now) stamp }
    {
        p < self.marks.len() && self.marks[p] == 1
    }

    // Whether a stamp is whole or initial.
    pub fn whole_or_initial(&self, stamp: u64) -> bool
        ensures { result ≡ whole_or_initial (tables_of self.now.stamps.b.now) stamp }
    {
        stamp == 0 || self.is_whole(stamp, find(self.stamps.stamps, self.stamps.links, stamp))
    }

    // The tests of a stamp of item `k` that isn't initial, with its first place and its set.
    fn good_place(&self, k: u64, stamp: u64, p: usize, own: u64) -> bool
        requires { Ranged self.now.stamps.b.now stamp × (stamp ≢ 0)
            × (p ≡ place self.now.stamps.stamps.now stamp)
            × (own ≡ write_set (tables_of self.now.stamps.b.now) stamp) }
        ensures { result ≡ good_ask (tables_of self.now.stamps.b.now) k stamp }
    {
        itemset::has(own, k) & self.is_whole(stamp, p) & is_counted(self.stamps.b, stamp)
    }

    // The tests of a stamp that is asked for of item `k`.
    pub fn good_ask(&self, k: u64, stamp: u64) -> bool
        requires { Ranged self.now.stamps.b.now stamp }
        ensures { result ≡ good_ask (tables_of self.now.stamps.b.now) k stamp }
    {
        if stamp == 0 {
            return true;
        }
        let p = find(self.stamps.stamps, self.stamps.links, stamp);
        let first = held(self.stamps.b, p as u64);
        self.good_place(k, stamp, p, first.set)
    }

    // The tests of item `k`'s entry.
    pub fn good_entry(&self, k: u64, e: Entry) -> bool
        requires { Ranged self.now.stamps.b.now e.stamp }
        ensures { result ≡ good_entry (tables_of self.now.stamps.b.now) k e }
    {
        if e.stamp == 0 {
            return e.set == 0;
        }
        let p = find(self.stamps.stamps, self.stamps.links, e.stamp);
        let own = held(self.stamps.b, p as u64).set;
        (e.set == own) & self.good_place(k, e.stamp, p, own)
    }

    // The tests of item `k`'s entry, which are `good` where the entry is like another that was
    // tested.
    fn good_like(&self, k: u64, e: Entry, like: Entry, good: bool) -> bool
        requires { Ranged self.now.stamps.b.now e.stamp
            × (good ≡ good_entry (tables_of self.now.stamps.b.now) k like) }
        ensures { result ≡ good_entry (tables_of self.now.stamps.b.now) k e }
    {
        if e.stamp == like.stamp && e.set == like.set {
            good
        } else {
            self.good_entry(k, e)
        }
    }

    // Item `k`'s entry in client `d`'s view; most are like the item's latest, which was tested.
    fn good_view(&self, d: u64, k: u64, latest: Entry, good: bool) -> bool
        requires { (1 ≤ d) × (d ≤ at self.now.stamps.b.now header clients_at)
            × (k < at self.now.stamps.b.now header items_at)
            × (good ≡ good_entry (tables_of self.now.stamps.b.now) k latest) }
        ensures { result ≡ good_entry (tables_of self.now.stamps.b.now) k
            ((tables_of self.now.stamps.b.now).view d k) }
    {
        let e = layout::entry::view(self.stamps.b, d, k);
        self.good_like(k, e, latest, good)
    }

    // Item `k`'s entries in all views.
    fn good_seen(&self, k: u64, latest: Entry, good: bool) -> bool
        requires { (k < at self.now.stamps.b.now header items_at)
            × (good ≡ good_entry (tables_of self.now.stamps.b.now) k latest) }
        ensures { result ≡ every (at self.now.stamps.b.now header clients_at)
            (λ i. good_entry (tables_of self.now.stamps.b.now) k
            ((tables_of self.now.stamps.b.now).view (suc i) k)) }
    {
        (0..layout::clients(self.stamps.b)).all(|i| self.good_view(i + 1, k, latest, good))
    }

    // The latest of item `k`, and its entries in all views.
    fn good_item(&self, k: u64) -> bool
        requires { k < at self.now.stamps.b.now header items_at }
        ensures { result ≡ (good_entry (tables_of self.now.stamps.b.now) k
            ((tables_of self.now.stamps.b.now).latest k)
            && every (at self.now.stamps.b.now header clients_at)
            (λ i. good_entry (tables_of self.now.stamps.b.now) k
            ((tables_of self.now.stamps.b.now).view (suc i) k))) }
    {
        let latest = layout::entry::latest(self.stamps.b, k);
        let good = self.good_entry(k, latest);
        good & self.good_seen(k, latest, good)
    }

    // All latest and all views.
    pub fn good_entries(&self) -> bool
        ensures { result ≡ good_entries (tables_of self.now.stamps.b.now) }
    {
        (0..layout::items(self.stamps.b)).all(|k| self.good_item(k))
    }
}

// ---- holders

// The holder at place `p`.
fn good_holder(stamps: &Stamps, p: u64) -> bool
    ensures { result ≡ (agrees (tables_of stamps.now.b.now) (held_in stamps.now.b.now p)
        && is_counted (tables_of stamps.now.b.now) (held_in stamps.now.b.now p).stamp) }
{
    let e = held(stamps.b, p);
    if e.stamp == 0 {
        return e.set == 0;
    }
    let own = stamps.set_of_stamp(e.stamp);
    (e.set == own) & is_counted(stamps.b, e.stamp)
}

fn good_holders(stamps: &Stamps) -> bool
    ensures { result ≡ all (λ e. agrees (tables_of stamps.now.b.now) e
        && is_counted (tables_of stamps.now.b.now) e.stamp)
        (sets_held (tables_of stamps.now.b.now)) }
{
    (0..HELD as u64).all(|p| good_holder(stamps, p))
}

// Whether stored version `i` is the first alike.
fn is_first_alike(versions: &Versions, i: u64) -> bool
    requires { i < at versions.now.b.now header versions_at }
    ensures { result ≡ eqb (place versions.now.keys.now (key_in versions.now.b.now i)) i }
{
    find(versions.keys, versions.links, versions.keys[i as usize]) as u64 == i
}

fn all_first(versions: &Versions) -> bool
    ensures { result ≡ distinct (tables_of versions.now.b.now).versions }
{
    (0..layout::version_count(versions.b)).all(|i| is_first_alike(versions, i))
}
