// Stored versions, and messages in flight (document 01: the pile).

#![tactic(auto)]

ghost use Rattle.std.specs.Prelude.{◌≡◌, ◌&&◌, ◌≤◌, ◌<◌, length};
ghost use Rattle.basics.specs.Lists.{every};
ghost use Rattle.protocol.specs.Range.{version_in_range};
ghost use Rattle.layout.specs.Layout.{most_clients, most_items, most_versions, most_messages};
ghost use Rattle.layout.specs.Layout.{version_words, message_words, needed};
ghost use Rattle.layout.specs.Layout.{at, versions, messages, version_at, message_at};
ghost use Rattle.layout.specs.Decode.{version_in};
ghost use Rattle.gather.specs.Sized.{sized};
ghost use Rattle.gather.specs.Words.{rest_of};
ghost use Rattle.range_message.specs.Messages.{words_in, words_test, message_test, gathered_test};

use gather::{owned, owned_or_initial, owns_pass, rest, versions_pass};
use layout::{MESSAGE_WORDS, MESSAGES, VERSION_WORDS, VERSIONS};
use protocol::Entry;
use protocol::message_kind::{COMMIT, FIRST_GET, FIRST_REPLY, GET, GOT, PREPARE, PREPARED};

// Word `f` of stored version `i`.
fn version_word(b: &[u64], i: u64, f: u64) -> u64
    requires { (i < most_versions) × (f < version_words) × (needed ≤ length b.now) }
    ensures { result ≡ at b.now versions (version_at i f) }
{
    let place = (VERSIONS + (VERSION_WORDS * i + f)) as usize;
    b[place]
}

// The first `n` stored versions, tested once. What is gathered stays five words, which a struct of
// this one loop would only name again.
pub fn versions_in_range(b: &[u64], n: u64, clients: u64, items: u64) -> bool
    requires { (n ≤ most_versions) × (clients ≤ most_clients) × (items ≤ most_items)
        × (needed ≤ length b.now) }
    ensures { result ≡ every n (λ i. version_in_range (sized clients items)
        (version_in b.now i)) }
{
    let rest = rest(clients);
    let mut ks = 0;
    let mut values = 0;
    let mut owns = 0;
    let mut sets = 0;
    let mut shifts = 1;
    for i in 0..n {
        let item = version_word(b, i, 0);
        let value = version_word(b, i, 1);
        let stamp = version_word(b, i, 2);
        let set = version_word(b, i, 3);
        ks = ks | item;
        values = values | value;
        owns = owns | owned(stamp, clients, rest);
        sets = sets | set;
        shifts = shifts & (set >> (item % 64));
    }
    versions_pass(items, ks, values, owns, sets, shifts)
}

// Word `f` of message `i`.
pub fn message_word(b: &[u64], i: u64, f: u64) -> u64
    requires { (i < most_messages) × (f < message_words) × (needed ≤ length b.now) }
    ensures { result ≡ at b.now messages (message_at i f) }
{
    let place = (MESSAGES + (MESSAGE_WORDS * i + f)) as usize;
    b[place]
}

// The words of a message, whatever its kind, which stays a number: a word may hold any.
#[derive(Clone, Copy)]
struct Words {
    kind: u64,
    who: u64,
    item: u64,
    value: u64,
    stamp: u64,
    set: u64,
    latest: Entry,
}

impl Words {
    // Those of message `i`.
    fn of(b: &[u64], i: u64) -> Words
        requires { (i < most_messages) × (needed ≤ length b.now) }
        ensures { result ≡ words_in b.now i }
    {
        Words {
            kind: message_word(b, i, 0),
            who: message_word(b, i, 1),
            item: message_word(b, i, 2),
            value: message_word(b, i, 3),
            stamp: message_word(b, i, 4),
            set: message_word(b, i, 5),
            latest: Entry {
                stamp: message_word(b, i, 6),
                set: message_word(b, i, 7),
            },
        }
    }
}

// What they are held to: the sizes, and the rest of the clients, which is found once for all.
#[derive(Drop)]
struct Limits {
    clients: u64,
    rest: u64,
    partitions: u64,
    items: u64,
    ghost in_range: { (clients ≤ most_clients) × (rest ≡ rest_of clients) × (1 ≤ partitions)
        × (1 ≤ items) },
}

// What a loop gathers of messages: values, stamps and sets by `|`, and whether the rest of each is
// in range.
#[derive(Drop)]
pub struct Gathered {
    pub ok: bool,
    pub values: u64,
    pub owns: u64,
    pub sets: u64,
}

impl Gathered {
    // With the words that the kind of one more message uses. In two groups, since the compiler
    // would make a table of jumps of more than three kinds, which takes longer than to compare.
    fn with(self, m: Words, limits: &Limits) -> Gathered
        ensures { gathered_test limits.now.items result ≡ (gathered_test limits.now.items self
            && words_test m limits.now.clients limits.now.partitions limits.now.items) }
    {
        let clients = limits.clients;
        let rest = limits.rest;
        let items = limits.items;
        let kind = m.kind;
        let who = m.who;
        let item = m.item;
        let stamp = m.stamp;
        if kind < GET {
            if kind == PREPARE {
                return Gathered {
                    ok: self.ok & ((item < items) & itemset::has(m.set, item)),
                    values: self.values | m.value,
                    owns: self.owns | owned(stamp, clients, rest),
                    sets: self.sets | m.set,
                };
            }
            if kind == PREPARED {
                return Gathered {
                    ok: self.ok & (item < items),
                    owns: self.owns | owned(stamp, clients, rest),
                    ..self
                };
            }
            if kind == COMMIT {
                return Gathered {
                    ok: self.ok & (who < limits.partitions),
                    owns: self.owns | owned(stamp, clients, rest),
                    ..self
                };
            }
            return Gathered { ok: false, ..self };
        }
        if kind == GET {
            return Gathered {
                ok: self.ok & (((1 <= who) & (who <= clients)) & (item < items)),
                owns: self.owns | owned_or_initial(stamp, clients, rest),
                ..self
            };
        }
        if kind == FIRST_GET {
            let right = ((1 <= who) & (who <= clients)) & (item < items);
            return Gathered {
                ok: self.ok & right,
                ..self
            };
        }
        Gathered {
            ok: self.ok
                & (((kind == GOT) | (kind == FIRST_REPLY))
                    & ((1 <= who) & (who <= clients))
                    & (item < items)),
            values: self.values | m.value,
            owns: self.owns
                | (owned_or_initial(stamp, clients, rest)
                    | owned_or_initial(m.latest.stamp, clients, rest)),
            sets: self.sets | (m.set | m.latest.set),
        }
    }

    // The one test of all messages.
    fn passes(self, items: u64) -> bool
        ensures { result ≡ gathered_test items self }
    {
        self.ok
            & (self.values < 4294967296)
            & owns_pass(self.owns)
            & itemset::all_below(self.sets, items)
    }
}

// The first `n` messages, tested once. Where there are none nothing is tested, which most calls on
// a block at rest find.
pub fn messages_in_range(b: &[u64], n: u64, clients: u64, partitions: u64, items: u64) -> bool
    requires { (n ≤ most_messages) × (clients ≤ most_clients) × (1 ≤ partitions) × (1 ≤ items)
        × (needed ≤ length b.now) }
    ensures { result ≡ every n (λ i. message_test b.now i clients partitions items) }
{
    if n == 0 {
        return true;
    }
    let limits = Limits {
        clients,
        rest: rest(clients),
        partitions,
        items,
    };
    let mut g = Gathered {
        ok: true,
        values: 0,
        owns: 0,
        sets: 0,
    };
    for i in 0..n {
        g = g.with(Words::of(b, i), &limits);
    }
    g.passes(items)
}
