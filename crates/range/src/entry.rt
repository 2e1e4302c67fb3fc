// Entries: the latest of each item and the views of the clients, where latest lies as a view before
// the first would.
ghost use Rattle.std.specs.Prelude.{◌≡◌, suc, ◌≤◌, length};
ghost use Rattle.basics.specs.Lists.{every};
ghost use Rattle.protocol.specs.Range.{entry_in_range};
ghost use Rattle.layout.specs.Layout.{most_clients, most_items, needed};
ghost use Rattle.gather.specs.Sized.{sized};
ghost use Rattle.range_client.specs.Entries.{entry_from};
ghost use Rattle.range.specs.Entries.{entries_at};

use layout::{ENTRY_WORDS, LATEST, MOST_ITEMS};
use range_client::entry::entries_in_range;

// Latest, and all views.
pub fn views_in_range(b: &[u64], clients: u64, items: u64) -> bool
    requires { (clients ≤ most_clients) × (items ≤ most_items) × (needed ≤ length b.now) }
    ensures { result ≡ every (suc clients) (λ i. every items
        (λ k. entry_in_range (sized clients items) (entry_from b.now (entries_at i) k))) }
{
    (0..clients + 1).all(|i| {
        let start = LATEST + ENTRY_WORDS * MOST_ITEMS * i;
        entries_in_range(b, start, clients, items)
    })
}
