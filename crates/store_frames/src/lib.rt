// The store's frames: what a line is parsed to (document 01: store frames).

#![tactic(auto)]

// The most bytes: of a store frame, of its line, of the log frame that a showing writes, and of a
// reply's line.
pub const MOST_FRAME: usize = 18 + 4 * 64;

pub const MOST_LINE: usize = 2 * MOST_FRAME + 1;

pub const MOST_LOG_FRAME: usize = 22 + 9 * 64 + 4 * 64;

pub const MOST_REPLY: usize = 2 * (1 + MOST_LOG_FRAME) + 1;

// A store frame (document 01's desk is a client, its cabinets are partitions, its lines items).
#[derive(Drop)]
pub enum StoreFrame {
    Fresh {
        clients: u64,
        partitions: u64,
        items: u64,
    },
    Read {
        client: u64,
        set: u64,
    },
    // Its values follow at byte 10.
    Write {
        client: u64,
        set: u64,
    },
    Deliver {
        place: u64,
    },
    Show {
        client: u64,
    },
    FastRead {
        client: u64,
        set: u64,
    },
    // Its values follow at byte 18.
    Mixed {
        client: u64,
        reads: u64,
        writes: u64,
    },
    Clear,
    HandOver {
        giver: u64,
        receiver: u64,
    },
    Compare {
        first: u64,
        second: u64,
    },
    Check,
}

// A frame of so many bytes: what a line parses to, unless it is malformed.
#[derive(Drop)]
pub struct Parsed {
    pub frame: StoreFrame,
    pub length: usize,
}
