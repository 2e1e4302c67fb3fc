// The messages in flight (document 01: the pile): eight words each, of which a message's kind says
// which it uses.

#![tactic(auto)]

ghost use Rattle.std.specs.Prelude.{◌≡◌, ◌+◌, ◌≤◌, ◌<◌, length, take, drop, get_or};
ghost use Rattle.std.proofs.lemmas.List.Edits.{sets};
ghost use Rattle.layout.specs.Layout.{most_messages, message_words, needed, at, messages, message_at};
ghost use Rattle.layout.specs.Decode.{kind_in, message_in, message_from};
ghost use Rattle.layout.specs.Store.{words_of_message, append_message, take_out};
ghost use Rattle.slots.specs.Room.{send};

use layout::{MESSAGE_WORDS, MESSAGES, MOST_MESSAGES, message_count, put_message_count, word_in};
use protocol::message_kind::{COMMIT, FIRST_GET, FIRST_REPLY, GET, GOT, PREPARE, PREPARED};
use protocol::{Entry, Message, Version};
use slots::put_words;

// Word `f` of the eight of message `i`.
fn part(b: &[u64], i: u64, f: u64) -> u64
    requires { (i < most_messages) × (f < message_words) }
    ensures { result ≡ at b.now messages (message_at i f) }
{
    word_in(b, MESSAGES, MESSAGE_WORDS * i + f)
}

// The kind of the message at place `i`.
pub fn kind(b: &[u64], i: u64) -> u64
    requires { i < most_messages }
    ensures { result ≡ kind_in b.now i }
{
    part(b, i, 0)
}

// The words of a message, and of two that lie behind each other the distance.
const WORDS: usize = MESSAGE_WORDS as usize;

// The message whose words these are.
#[tactic(auto, unfolding(layout::specs::Decode::message_of))]
fn of_words(words: [u64; WORDS]) -> Message
    ensures { result ≡ message_from (λ f. get_or words f 0) }
{
    let [kind, who, item, value, stamp, set, latest_stamp, latest_set] = words;
    let version = Version {
        item,
        value,
        stamp,
        set,
    };
    let latest = Entry {
        stamp: latest_stamp,
        set: latest_set,
    };
    match kind {
        0 => Message::Commit {
            partition: 0,
            stamp: 0,
        },
        PREPARE => Message::Prepare(version),
        PREPARED => Message::Prepared { item, stamp },
        COMMIT => Message::Commit {
            partition: who,
            stamp,
        },
        GET => Message::Get {
            client: who,
            item,
            stamp,
        },
        GOT => Message::Got {
            client: who,
            version,
            latest,
        },
        FIRST_GET => Message::FirstGet { client: who, item },
        _ => Message::FirstReply {
            client: who,
            version,
            latest,
        },
    }
}

// The words of a message: 0 where its kind doesn't use one.
fn words_of(m: Message) -> [u64; WORDS]
    ensures { result ≡ words_of_message m }
{
    match m {
        Message::Prepare(v) => [PREPARE, 0, v.item, v.value, v.stamp, v.set, 0, 0],
        Message::Prepared { item, stamp } => [PREPARED, 0, item, 0, stamp, 0, 0, 0],
        Message::Commit { partition, stamp } => [COMMIT, partition, 0, 0, stamp, 0, 0, 0],
        Message::Get {
            client,
            item,
            stamp,
        } => [GET, client, item, 0, stamp, 0, 0, 0],
        Message::Got {
            client,
            version: v,
            latest,
        } => [
            GOT,
            client,
            v.item,
            v.value,
            v.stamp,
            v.set,
            latest.stamp,
            latest.set,
        ],
        Message::FirstGet { client, item } => [FIRST_GET, client, item, 0, 0, 0, 0, 0],
        Message::FirstReply {
            client,
            version: v,
            latest,
        } => [
            FIRST_REPLY,
            client,
            v.item,
            v.value,
            v.stamp,
            v.set,
            latest.stamp,
            latest.set,
        ],
    }
}

// The message at place `i`.
#[tactic(auto, unfolding(layout::specs::Decode::message_in))]
pub fn message(b: &[u64], i: u64) -> Message
    requires { i < most_messages }
    ensures { result ≡ message_in b.now i }
{
    of_words([
        part(b, i, 0),
        part(b, i, 1),
        part(b, i, 2),
        part(b, i, 3),
        part(b, i, 4),
        part(b, i, 5),
        part(b, i, 6),
        part(b, i, 7),
    ])
}

// Message `m` joins the `n` that are there, at the end.
#[tactic(auto, unfolding(layout::specs::Store::append_message, layout::specs::Store::store_message))]
fn append(b: &mut [u64], n: u64, m: Message)
    requires { n < most_messages }
    ensures { b.new ≡ append_message b.old n m }
{
    put_words(b, MESSAGES + MESSAGE_WORDS * n, words_of(m));
    put_message_count(b, n + 1);
}

// Message `m` joins, where there is room.
#[tactic(auto, unfolding(slots::specs::Room::send))]
pub fn send(b: &mut [u64], m: Message)
    ensures { b.new ≡ send b.old m }
{
    let n = message_count(b);
    if n < MOST_MESSAGES {
        append(b, n, m);
    }
}

// The `count` words that begin one message after `from` move to `from`.
fn move_up(b: &mut [u64], from: usize, count: usize)
    requires { from + message_words + count ≤ length b.old }
    ensures { b.new ≡ sets b.old from
        (take count (drop (from + message_words) b.old)) }
{
    b.copy_within(from + WORDS..from + WORDS + count, from);
}

// Of `n` messages the one at place `i` is taken out, and later ones move up by one.
#[tactic(auto, unfolding(layout::specs::Store::take_out))]
pub fn take_out(b: &mut [u64], n: u64, i: u64)
    requires { (i < n) × (n ≤ most_messages) × (needed ≤ length b.old) }
    ensures { b.new ≡ take_out b.old n i }
{
    move_up(
        b,
        (MESSAGES + MESSAGE_WORDS * i) as usize,
        (MESSAGE_WORDS * (n - (i + 1))) as usize,
    );
    put_message_count(b, n - 1);
}
