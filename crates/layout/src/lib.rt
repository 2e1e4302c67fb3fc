// Where each field of the tables lies in the lent block of 64-bit words (docs/LAYOUT.md). A word
// past the end of a block is read as 0, and a store there changes nothing.

#![tactic(auto)]

ghost use Rattle.std.specs.Prelude.{◌≡◌, ◌+◌, ◌≤◌, ◌<◌, length, get_or, set};
ghost use Rattle.layout.specs.Layout.{needed, at, store, header, clients_at, partitions_at};
ghost use Rattle.layout.specs.Layout.{items_at, versions_at, messages_at};
ghost use Rattle.layout.specs.Store.{store_sizes, blank, fresh_block};

pub mod entry;
pub mod values;

// The most clients, partitions and items that a fresh start allows, and the most stored versions
// and messages in flight that there are words for.
pub const MOST_CLIENTS: u64 = 8;

pub const MOST_PARTITIONS: u64 = 8;

pub const MOST_ITEMS: u64 = 64;

pub const MOST_VERSIONS: u64 = 512;

pub const MOST_MESSAGES: u64 = 128;

// The most items that a write has; no word depends on it.
pub const MOST_WRITE_ITEMS: u64 = 12;

// The modes of a client: no transaction under way, a read, a write, a fast read in its first and in
// its second part, and a mixed transaction. A mode is below `MODES`.
// Stay numbers: they are words of a lent block, which may hold any other number too.
pub const IDLE: u64 = 0;

pub const READING: u64 = 1;

pub const WRITING: u64 = 2;

pub const FIRST_PART: u64 = 3;

pub const SECOND_PART: u64 = 4;

pub const MIXING: u64 = 5;

pub const MODES: u64 = 6;

// The words of the header, of a client's scalars, of an entry, a version and a message.
pub const HEADER_WORDS: u64 = 16;

pub const CLIENT_WORDS: u64 = 16;

pub const ENTRY_WORDS: u64 = 2;

pub const VERSION_WORDS: u64 = 4;

pub const MESSAGE_WORDS: u64 = 8;

// Where each section starts, after the header: where the one before it ends.
pub const SCALARS: u64 = HEADER_WORDS;

pub const LATEST: u64 = SCALARS + CLIENT_WORDS * MOST_CLIENTS;

pub const VIEWS: u64 = LATEST + ENTRY_WORDS * MOST_ITEMS;

pub const ASKED: u64 = VIEWS + ENTRY_WORDS * MOST_ITEMS * MOST_CLIENTS;

pub const VALUES: u64 = ASKED + MOST_ITEMS * MOST_CLIENTS;

pub const LAST_STAMPS: u64 = VALUES + MOST_ITEMS * MOST_CLIENTS;

pub const LAST_VALUES: u64 = LAST_STAMPS + MOST_ITEMS * MOST_CLIENTS;

pub const FIRSTS: u64 = LAST_VALUES + MOST_ITEMS * MOST_CLIENTS;

pub const VERSIONS: u64 = FIRSTS + ENTRY_WORDS * MOST_ITEMS * MOST_CLIENTS;

pub const MESSAGES: u64 = VERSIONS + VERSION_WORDS * MOST_VERSIONS;

// The length that a block needs.
pub const NEEDED: usize = (MESSAGES + MESSAGE_WORDS * MOST_MESSAGES) as usize;

// The word at `place`.
pub fn word(b: &[u64], place: usize) -> u64
    ensures { result ≡ get_or b.now place 0 }
{
    b.get(place).copied().unwrap_or(0)
}

// The word at `place` becomes `v`.
pub fn put_word(b: &mut [u64], place: usize, v: u64)
    ensures { b.new ≡ set b.old place v }
{
    if place < b.len() {
        b[place] = v;
    }
}

// Word `i` of the section that starts at `base`.
pub fn word_in(b: &[u64], base: u64, i: u64) -> u64
    requires { (base < needed) × (i < needed) }
    ensures { result ≡ get_or b.now (base + i) 0 }
{
    word(b, (base + i) as usize)
}

// It becomes `v`.
pub fn put_word_in(b: &mut [u64], base: u64, i: u64, v: u64)
    requires { (base < needed) × (i < needed) }
    ensures { b.new ≡ set b.old (base + i) v }
{
    put_word(b, (base + i) as usize, v);
}

// How many clients (document 01: desks) there are.
pub fn clients(b: &[u64]) -> u64
    ensures { result ≡ at b.now header clients_at }
{
    word(b, 0)
}

// How many partitions (cabinets) there are.
pub fn partitions(b: &[u64]) -> u64
    ensures { result ≡ at b.now header partitions_at }
{
    word(b, 1)
}

// How many items (lines) there are.
pub fn items(b: &[u64]) -> u64
    ensures { result ≡ at b.now header items_at }
{
    word(b, 2)
}

// How many versions are stored.
pub fn version_count(b: &[u64]) -> u64
    ensures { result ≡ at b.now header versions_at }
{
    word(b, 3)
}

// How many messages are in flight (in the pile).
pub fn message_count(b: &[u64]) -> u64
    ensures { result ≡ at b.now header messages_at }
{
    word(b, 4)
}

// The three sizes.
pub fn put_sizes(b: &mut [u64], clients: u64, partitions: u64, items: u64)
    ensures { b.new ≡ store_sizes b.old clients partitions items }
{
    put_word(b, 0, clients);
    put_word(b, 1, partitions);
    put_word(b, 2, items);
}

pub fn put_version_count(b: &mut [u64], n: u64)
    ensures { b.new ≡ store b.old header versions_at n }
{
    put_word(b, 3, n);
}

pub fn put_message_count(b: &mut [u64], n: u64)
    ensures { b.new ≡ store b.old header messages_at n }
{
    put_word(b, 4, n);
}

// The first `n` words become 0.
#[tactic(auto, unfolding(crate::specs::Store::blank))]
fn clear(b: &mut [u64], n: usize)
    requires { n ≤ length b.old }
    ensures { b.new ≡ blank n b.old }
{
    b[..n].fill(0);
}

// What an accepted fresh makes: every word of the needed length becomes 0 but the sizes.
pub fn make_fresh(b: &mut [u64], clients: u64, partitions: u64, items: u64)
    requires { needed ≤ length b.old }
    ensures { b.new ≡ fresh_block b.old clients partitions items }
{
    clear(b, NEEDED);
    put_sizes(b, clients, partitions, items);
}
