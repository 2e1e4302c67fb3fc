// The values that the store's calls pass around: versions, entries, messages and answers, the kinds
// of ended transactions and of messages, and the outcomes of deliveries. The tables, the steps and
// the refusals are definitions, in specs/.

#![tactic(auto)]

ghost use Rattle.std.specs.Prelude.{◌≡◌};
ghost use Rattle.protocol.specs.Tables.{later_of};
ghost use Rattle.protocol.specs.Steps.{offered};

pub mod kind;
pub mod message_kind;
pub mod outcome;
pub mod refusal;

// A version of an item (document 01: line): its value, the stamp of the write that made it, and
// that write's set.
#[derive(Clone, Copy)]
pub struct Version {
    pub item: u64,
    pub value: u64,
    pub stamp: u64,
    pub set: u64,
}

// A stamp and its write set: what a client last saw of an item (view), or the item's latest
// committed write (latest).
#[derive(Clone, Copy)]
pub struct Entry {
    pub stamp: u64,
    pub set: u64,
}

impl Entry {
    // The later of two; at equal stamps the one already there stays.
    pub fn later(self, other: Entry) -> Entry
        ensures { result ≡ later_of self other }
    {
        if self.stamp < other.stamp {
            other
        } else {
            self
        }
    }

    // The latest of itself, the latest and the version of a got; at equal stamps it stays before
    // the latest, and the latest before the version.
    pub fn offered(self, version: Version, latest: Entry) -> Entry
        ensures { result ≡ offered self version latest }
    {
        let seen = self.later(latest);
        seen.later(Entry {
            stamp: version.stamp,
            set: version.set,
        })
    }
}

// A message in flight (document 01: in the pile); `message_kind` numbers the kinds.
#[derive(Clone, Copy)]
pub enum Message {
    Prepare(Version),
    Prepared {
        item: u64,
        stamp: u64,
    },
    Commit {
        partition: u64,
        stamp: u64,
    },
    Get {
        client: u64,
        item: u64,
        stamp: u64,
    },
    Got {
        client: u64,
        version: Version,
        latest: Entry,
    },
    FirstGet {
        client: u64,
        item: u64,
    },
    FirstReply {
        client: u64,
        version: Version,
        latest: Entry,
    },
}

// What a call answers. A refusal stays a number here: C takes it, and the theorems of condition 3
// speak of `Refused n`. Functions that refuse give a `Refusal`.
#[derive(Clone, Copy)]
pub enum Answer {
    Refused(u64),
    Made,
    Started {
        length: u64,
    },
    Delivered {
        kind: u64,
        length: u64,
        outcome: u64,
    },
    Shown {
        length: u64,
    },
    Cleared {
        gone: u64,
    },
    HandedOver {
        giver: u64,
        receiver: u64,
    },
    Compared {
        standing: u64,
    },
    Checked,
}
