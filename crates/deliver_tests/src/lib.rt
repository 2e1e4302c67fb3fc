// What is told of a message: before it is delivered its refusal or the version that answers a get,
// and after it the outcome.

#![tactic(auto)]

ghost use Rattle.std.specs.Prelude.{◌≡◌, ◌≤◌, ◌<◌, length};
ghost use Rattle.protocol.specs.Tables.{writer_of};
ghost use Rattle.layout.specs.Layout.{most_versions, needed};
ghost use Rattle.deliver_tests.specs.Tests.{Bounded, told, reply_tested, get_tested};
ghost use Rattle.deliver_tests.specs.Tests.{prepared_awaited, right_prepared, prepared_tested};
ghost use Rattle.deliver_tests.specs.Tests.{right_got, tested_in, over, got_outcome, outcome_in};

use client_fields::{asked, awaited, last_kind, mode, stamp, write_awaited};
use itemset::has;
use layout::entry::latest;
use layout::{FIRST_PART, IDLE, MIXING, READING, SECOND_PART, WRITING};
use protocol::kind::MIXED;
use protocol::outcome::{NONE_ENDED, READ_ENDED, WRITE_ENDED};
use protocol::refusal::Refusal;
use protocol::{Message, Version};
use versions::{find, is_stored, version};

// What is told of a message that is no get.
fn told(awaited: bool) -> Result<Option<Version>, Refusal>
    ensures { result ≡ told awaited }
{
    if awaited {
        Ok(None)
    } else {
        Err(Refusal::Unexpected)
    }
}

// A reply for `item` to client `d`, right in mode and stamp or not.
fn reply(b: &[u64], d: u64, item: u64, right: bool) -> Result<Option<Version>, Refusal>
    requires { (1 ≤ d) × (d ≤ 8) }
    ensures { result ≡ reply_tested b.now d item right }
{
    told(has(awaited(b, d), item) & right)
}

// A get of `item`, of exactly this stamp, among `n` stored versions: one search tells whether it is
// stored, and which it is. None of stamp 0 is the initial one.
fn get(b: &[u64], n: u64, item: u64, stamp: u64) -> Result<Option<Version>, Refusal>
    requires { (n ≤ most_versions) × (needed ≤ length b.now) }
    ensures { result ≡ get_tested b.now n item stamp }
{
    match find(b, n, item, stamp) {
        Some(i) => Ok(Some(version(b, i))),
        None if stamp == 0 => Ok(None),
        None => Err(Refusal::Missing),
    }
}

// Whether a got of `item` with this stamp is one that client `d` awaits in its mode.
fn is_asked(b: &[u64], d: u64, item: u64, stamp: u64) -> bool
    requires { (1 ≤ d) × (d ≤ 8) × (item < 64) }
    ensures { result ≡ right_got b.now d item stamp }
{
    matches!(mode(b, d), READING | SECOND_PART | MIXING) & (asked(b, d, item) == stamp)
}

// The items whose prepared reply client `d` awaits: a mixed transaction has a word of its own for
// them.
fn prepared_awaited(b: &[u64], d: u64) -> u64
    requires { (1 ≤ d) × (d ≤ 8) }
    ensures { result ≡ prepared_awaited b.now d }
{
    if mode(b, d) == MIXING {
        write_awaited(b, d)
    } else {
        awaited(b, d)
    }
}

// Whether a prepared reply with stamp `s` is one that its client awaits in its mode.
fn is_right_prepared(b: &[u64], s: u64) -> bool
    requires { (1 ≤ writer_of s) × (writer_of s ≤ 8) }
    ensures { result ≡ right_prepared b.now s }
{
    matches!(mode(b, s % 16), WRITING | MIXING) & (stamp(b, s % 16) == s)
}

// A prepared reply for `item` with stamp `s`.
fn prepared(b: &[u64], item: u64, s: u64) -> Result<Option<Version>, Refusal>
    requires { (1 ≤ writer_of s) × (writer_of s ≤ 8) }
    ensures { result ≡ prepared_tested b.now item s }
{
    told(has(prepared_awaited(b, s % 16), item) & is_right_prepared(b, s))
}

// Message `m`, with `n` stored versions: refused, or the stored version that answers a get.
#[tactic(auto, unfolding(crate::specs::Tests::tested_in))]
pub fn test(b: &[u64], n: u64, m: Message) -> Result<Option<Version>, Refusal>
    requires { (n ≤ most_versions) × Bounded m × (needed ≤ length b.now) }
    ensures { result ≡ tested_in b.now n m }
{
    match m {
        Message::Prepare(v) => told(!is_stored(b, n, v.item, v.stamp)),
        Message::Prepared { item, stamp: s } => prepared(b, item, s),
        Message::Commit { .. } => Ok(None),
        Message::Get { item, stamp: s, .. } => get(b, n, item, s),
        Message::Got {
            client,
            version: v,
            ..
        } => { reply(b, client, v.item, is_asked(b, client, v.item, v.stamp)) }
        Message::FirstGet { item, .. } => get(b, n, item, latest(b, item).stamp),
        Message::FirstReply {
            client,
            version: v,
            ..
        } => { reply(b, client, v.item, mode(b, client) == FIRST_PART) }
    }
}

// The outcome of a reply to client `d`, after its delivery: this one where it was the last.
fn over(b: &[u64], d: u64, outcome: u64) -> u64
    requires { (1 ≤ d) × (d ≤ 8) }
    ensures { result ≡ over b.now d outcome }
{
    if mode(b, d) == IDLE {
        outcome
    } else {
        NONE_ENDED
    }
}

// The outcome of the got that ended a transaction of client `d`: a read's, or a mixed one's.
fn got_outcome(b: &[u64], d: u64) -> u64
    requires { (1 ≤ d) × (d ≤ 8) }
    ensures { result ≡ got_outcome b.now d }
{
    if last_kind(b, d) == MIXED {
        WRITE_ENDED
    } else {
        READ_ENDED
    }
}

// The outcome of message `m`, after its delivery.
#[tactic(auto, unfolding(crate::specs::Tests::outcome_in))]
pub fn outcome(b: &[u64], m: Message) -> u64
    requires { Bounded m }
    ensures { result ≡ outcome_in b.now m }
{
    match m {
        Message::Prepared { stamp: s, .. } => over(b, s % 16, WRITE_ENDED),
        Message::Got { client, .. } => over(b, client, got_outcome(b, client)),
        Message::FirstReply { client, .. } => over(b, client, READ_ENDED),
        Message::Prepare(_)
        | Message::Commit { .. }
        | Message::Get { .. }
        | Message::FirstGet { .. } => NONE_ENDED,
    }
}
