// Entries that stand one after another: latest, the view of a client, and the first replies that it
// keeps.
ghost use Rattle.std.specs.Prelude.{not, ◌||◌, ◌≡◌, ◌+◌, ◌*◌, ◌≤◌, ◌<◌, length, get_or};
ghost use Rattle.basics.specs.Lists.{every};
ghost use Rattle.itemset.specs.Set.{has};
ghost use Rattle.protocol.specs.Range.{entry_in_range};
ghost use Rattle.layout.specs.Layout.{most_clients, most_items, entry_words, needed, base, versions};
ghost use Rattle.gather.specs.Sized.{sized};
ghost use Rattle.range_client.specs.Entries.{entry_from};

use gather::{entries_pass, entry_in_range, lacks, mixed, room, roomed};
use layout::ENTRY_WORDS;
use protocol::Entry;

// Word `f` of entry `k` of those from word `start` on.
fn entry_word(b: &[u64], start: u64, k: u64, f: u64) -> u64
    requires { (start ≤ base versions) × (k < most_items) × (f < entry_words)
        × (needed ≤ length b.now) }
    ensures { result ≡ get_or b.now (start + (entry_words * k + f)) 0 }
{
    let place = (start + (ENTRY_WORDS * k + f)) as usize;
    b[place]
}

// Those entries of the items, tested once. What is gathered stays four words: `gather` tests stamps
// and entries alike by words, so a struct of this one loop would be taken apart again.
pub fn entries_in_range(b: &[u64], start: u64, clients: u64, items: u64) -> bool
    requires { (start ≤ base versions) × (clients ≤ most_clients) × (items ≤ most_items)
        × (needed ≤ length b.now) }
    ensures { result ≡ every items (λ k. entry_in_range (sized clients items)
        (entry_from b.now start k)) }
{
    let room = room(clients);
    let mut stamps = 0;
    let mut mixes = 0;
    let mut rooms = 0;
    let mut sets = 0;
    for k in 0..items {
        let stamp = entry_word(b, start, k, 0);
        let set = entry_word(b, start, k, 1);
        stamps = stamps | stamp;
        mixes = mixes | mixed(stamp);
        rooms = rooms | roomed(stamp, clients, room);
        sets = sets | set;
    }
    entries_pass(clients, items, stamps, mixes, rooms, sets)
}

// Those of the items of `set` that aren't in `but`, one by one.
pub fn some_entries_in_range(
    b: &[u64],
    start: u64,
    set: u64,
    but: u64,
    clients: u64,
    items: u64,
) -> bool
    requires { (start ≤ base versions) × (clients ≤ most_clients) × (items ≤ most_items)
        × (needed ≤ length b.now) }
    ensures { result ≡ every items (λ k. not (has set k) || has but k
        || entry_in_range (sized clients items) (entry_from b.now start k)) }
{
    (0..items).all(|k| {
        let stamp = entry_word(b, start, k, 0);
        let set_of = entry_word(b, start, k, 1);
        lacks(set, k)
            | itemset::has(but, k)
            | entry_in_range(clients, items, Entry { stamp, set: set_of })
    })
}
