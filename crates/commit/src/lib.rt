// Commits: each item of the partition with a stored version of the stamp takes it as latest, if it
// is later. One pass over the versions.

#![tactic(auto)]

ghost use Rattle.std.specs.Prelude.{◌≡◌, ◌≤◌, ◌<◌, length};
ghost use Rattle.basics.specs.Fold.{up_to};
ghost use Rattle.commit.specs.Commit.{commit_item, commit_version, commit_delivered};
ghost use Rattle.layout.specs.Layout.{most_versions, needed};

use layout::entry::{latest, put_latest};
use protocol::{Entry, Version};
use versions::{stamp_of, version};

// The item of version `v`, if it lies in partition `p`.
fn commit_item(b: &mut [u64], partitions: u64, p: u64, v: Version)
    requires { 1 ≤ partitions }
    ensures { b.new ≡ commit_item partitions p b.old v }
{
    let item = v.item;
    if (item % partitions == p) & (item < 64) {
        let write = Entry {
            stamp: v.stamp,
            set: v.set,
        };
        let entry = latest(b, item).later(write);
        put_latest(b, item, entry);
    }
}

// Version `i`, if it has the stamp.
fn commit_version(b: &mut [u64], partitions: u64, p: u64, stamp: u64, i: u64)
    requires { (1 ≤ partitions) × (i < most_versions) × (needed ≤ length b.old) }
    ensures { b.new ≡ commit_version partitions p stamp b.old i }
{
    if stamp_of(b, i) == stamp {
        commit_item(b, partitions, p, version(b, i));
    }
}

// A commit of this stamp to partition `p`, with so many stored versions.
pub fn commit(b: &mut [u64], partitions: u64, versions: u64, p: u64, stamp: u64)
    requires { (1 ≤ partitions) × (versions ≤ most_versions) × (needed ≤ length b.old) }
    ensures { b.new ≡ commit_delivered b.old partitions
        versions p stamp }
{
    for i in 0..versions {
        commit_version(b, partitions, p, stamp, i);
    }
}
