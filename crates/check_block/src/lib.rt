// A check of a valid block (document 02, P9): every place that holds a stamp, a set or a value is
// looked at once, with the block's stamps and versions found by their links.

#![tactic(auto)]

ghost use Rattle.std.specs.Prelude.{true, ◌≡◌, suc, ◌≤◌, length};
ghost use Rattle.basics.specs.Lists.{every};
ghost use Rattle.protocol.specs.Check.{sound};
ghost use Rattle.layout.specs.Layout.{most_versions, header, at, clients_at};
ghost use Rattle.layout.specs.Decode.{tables_of, valid_block};
ghost use Rattle.check_stamps.specs.Stamps.{Held, Keyed};
ghost use Rattle.check_stamps.specs.Parts.{good_client};

use check_clients::{good_firsts, good_items, good_stamp};
use check_entries::{Looks, Tables, Wholes};
use check_messages::kinds::good_messages;
use check_messages::one_each;
use check_stamps::{HELD, KEYS, Stamps, Versions, gather_keys, gather_stamps};
use client_parts::{read_awaited, write_awaited};
use index::{LINKS, index};

// Client `d`: its transaction under way, and the messages that it awaits.
fn good_client(looks: &Looks, d: u64) -> bool
    requires { (1 ≤ d) × (d ≤ at looks.now.wholes.stamps.b.now header clients_at) }
    ensures { result ≡ good_client (tables_of looks.now.wholes.stamps.b.now) d }
{
    let b = looks.wholes.stamps.b;
    good_firsts(looks, d)
        & good_stamp(b, d)
        & good_items(&looks.versions, d)
        & one_each(b, false, d, read_awaited(b, d))
        & one_each(b, true, d, write_awaited(b, d))
}

// All clients.
fn good_clients(looks: &Looks) -> bool
    ensures { result ≡ every (at looks.now.wholes.stamps.b.now header clients_at)
        (λ i. good_client (tables_of looks.now.wholes.stamps.b.now) (suc i)) }
{
    (0..layout::clients(looks.wholes.stamps.b)).all(|i| good_client(looks, i + 1))
}

// Every place, looking in all tables.
fn is_sound(looks: &Looks) -> bool
    ensures { result ≡ sound (tables_of looks.now.wholes.stamps.b.now) }
{
    let tables = Tables {
        stamps: looks.wholes.stamps,
        versions: looks.versions,
    };
    looks.wholes.good_entries() & tables.holders() & good_clients(looks) & good_messages(looks)
}

// The same, with which stamps are whole told first.
fn check_by_wholes(tables: &Tables) -> bool
    ensures { result ≡ sound (tables_of tables.now.stamps.b.now) }
{
    let mut marks = [0u64; KEYS];
    tables.gather_wholes(&mut marks);
    let wholes = Wholes {
        stamps: tables.stamps,
        marks: &marks,
    };
    is_sound(&Looks {
        wholes,
        versions: tables.versions,
    })
}

// The same, with the tables made.
fn check_by_tables<'a>(
    b: &'a [u64],
    stamps: &'a [u64],
    links: &'a [u64],
    keys: &'a [u64],
    paths: &'a [u64],
) -> bool
    requires { Held b.now stamps.now links.now × Keyed b.now keys.now paths.now }
    ensures { result ≡ sound (tables_of b.now) }
{
    let stamps = Stamps { b, stamps, links };
    let versions = Versions {
        b,
        keys,
        links: paths,
    };
    check_by_wholes(&Tables { stamps, versions })
}

// Whether the tables of a valid block keep all rules of a check.
pub fn check(b: &[u64]) -> bool
    requires { valid_block b.now ≡ true }
    ensures { result ≡ sound (tables_of b.now) }
{
    let mut stamps = [0u64; HELD];
    let mut links = [0u64; LINKS];
    gather_stamps(b, &mut stamps);
    index(&stamps, &mut links);
    let mut keys = [0u64; KEYS];
    let mut paths = [0u64; LINKS];
    gather_keys(b, &mut keys);
    index(&keys, &mut paths);
    check_by_tables(b, &stamps, &links, &keys, &paths)
}
