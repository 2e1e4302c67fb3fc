// Stamps, entries and versions in range, on plain numbers: one at a time, or all that a loop meets,
// gathered by `|` and `&` into words that are tested once.

#![tactic(auto)]

ghost use Rattle.std.specs.Prelude.{◌≡◌, ◌-◌, ◌<◌, ◌≤◌, not, if◌then◌else◌, nat_lt};
ghost use Rattle.itemset.specs.Set.{has};
ghost use Rattle.protocol.specs.Range.{stamp_in_range, entry_in_range};
ghost use Rattle.gather.specs.Sized.{sized};
ghost use Rattle.gather.specs.Words.{mixed, roomed, owned, rest_of, stamps_test, entries_test};
ghost use Rattle.gather.specs.Words.{owns_test, versions_test};

use protocol::Entry;

// 2 to the power 36: a stamp in range has a number of 32 bits and a writer of 4.
const STAMPS_END: u64 = 68719476736;

// 2 to the power 36, less 9.
const RAISING: u64 = 68719476727;

// 2 to the power 64, less 17.
const LOWERING: u64 = 18446744073709551599;

// Item `k` is no member of `set`.
pub fn lacks(set: u64, k: u64) -> bool
    requires { k < 64 }
    ensures { result ≡ not (has set k) }
{
    (set >> k) % 2 == 0
}

// What a loop gathers of a stamp by `|` beside the stamp: a word whose bit 3 is clear where number
// and writer are both 0, or neither and the writer is at most 8, and one whose bit 3 is then clear
// where the writer is a client. Of 8 clients nothing has to be gathered there, and the compiler
// makes a loop of its own for them.
pub fn mixed(stamp: u64) -> u64
    ensures { result ≡ mixed stamp }
{
    let raised = stamp.wrapping_add(RAISING);
    (raised >> 33) ^ raised
}

pub fn room(clients: u64) -> u64
    ensures { result ≡ 7 - clients }
{
    7u64.saturating_sub(clients)
}

pub fn roomed(stamp: u64, clients: u64, room: u64) -> u64
    requires { room ≡ 7 - clients }
    ensures { result ≡ (if nat_lt clients 8 then roomed clients stamp else 0) }
{
    if clients < 8 {
        stamp.wrapping_add(room)
    } else {
        0
    }
}

// The one test of all stamps.
pub fn stamps_pass(clients: u64, stamps: u64, mixes: u64, rooms: u64) -> bool
    ensures { result ≡ stamps_test clients stamps mixes rooms }
{
    (stamps < STAMPS_END) & lacks(mixes, 3) & ((8 <= clients) | lacks(rooms, 3))
}

// The one test of all entries: their stamps, and their sets.
pub fn entries_pass(
    clients: u64,
    items: u64,
    stamps: u64,
    mixes: u64,
    rooms: u64,
    sets: u64,
) -> bool
    ensures { result ≡ entries_test clients items stamps mixes rooms sets }
{
    stamps_pass(clients, stamps, mixes, rooms) & itemset::all_below(sets, items)
}

// What a loop gathers by `|` of a stamp that is not to be initial: a word below 2 to the power 36,
// with bit 3 clear, where the stamp is in range and has a writer.
pub fn owned(stamp: u64, clients: u64, rest: u64) -> u64
    requires { (clients ≤ 8) × (rest ≡ rest_of clients) }
    ensures { result ≡ owned clients stamp }
{
    stamp.wrapping_add(LOWERING) | stamp.wrapping_add(rest)
}

// What a loop gathers so of a stamp that may be initial.
pub fn owned_or_initial(stamp: u64, clients: u64, rest: u64) -> u64
    requires { (clients ≤ 8) × (rest ≡ rest_of clients) }
    ensures { owns_test result ≡ stamp_in_range (sized clients 0) stamp }
{
    if stamp == 0 {
        0
    } else {
        owned(stamp, clients, rest)
    }
}

// A choice, so that the compiler makes it once and not in the loop.
pub fn rest(clients: u64) -> u64
    ensures { result ≡ rest_of clients }
{
    if clients < 8 {
        7 - clients
    } else {
        18446744073709551615
    }
}

// The one test of all such stamps.
pub fn owns_pass(owns: u64) -> bool
    ensures { result ≡ owns_test owns }
{
    (owns < STAMPS_END) & lacks(owns, 3)
}

// The one test of all versions: items, values, stamps and sets gathered by `|`, and by `&` the sets
// shifted by their items.
pub fn versions_pass(items: u64, ks: u64, values: u64, owns: u64, sets: u64, shifts: u64) -> bool
    ensures { result ≡ versions_test items ks values owns sets shifts }
{
    (ks < 64)
        & (values < 4294967296)
        & owns_pass(owns)
        & itemset::all_below(sets, items)
        & itemset::has(shifts, 0)
}

// A stamp: 0, or a number of 1 to 4,294,967,295 and a client that exists.
pub fn stamp_in_range(clients: u64, stamp: u64) -> bool
    requires { clients ≤ 8 }
    ensures { result ≡ stamp_in_range (sized clients 0) stamp }
{
    (stamp == 0) | owns_pass(owned(stamp, clients, rest(clients)))
}

pub fn entry_in_range(clients: u64, items: u64, e: Entry) -> bool
    requires { clients ≤ 8 }
    ensures { result ≡ entry_in_range (sized clients items) e }
{
    stamp_in_range(clients, e.stamp) & itemset::all_below(e.set, items)
}
