// What a check asks of a message, kind by kind: of the stamps, sets and values that it brings, and
// that it fits its client's transaction.
ghost use Rattle.std.specs.Prelude.{true, not, ◌&&◌, ◌≡◌, ◌≢◌, ◌≤◌, ◌<◌, eqb};
ghost use Rattle.basics.specs.Lists.{all};
ghost use Rattle.protocol.specs.declared.Message.TheVariants.{Prepare, Prepared};
ghost use Rattle.protocol.specs.Tables.{entry_of, is_first_part};
ghost use Rattle.protocol.specs.Message.{kinds};
ghost use Rattle.protocol.specs.Range.{message_in_range};
ghost use Rattle.protocol.specs.Check.{whole_or_initial, is_counted, stored_value};
ghost use Rattle.layout.specs.Layout.{most_clients, most_items, header, at, messages_at};
ghost use Rattle.layout.specs.Decode.{client_in, message_of, message_in, tables_of};
ghost use Rattle.check_entries.specs.Entries.{Ranged};
ghost use Rattle.check_stamps.specs.Parts.{good_entry, good_message};

use check_entries::{Looks, Wholes, is_counted};
use check_stamps::Versions;
use client_parts::FIRST_STAGE;
use protocol::message_kind::{COMMIT, FIRST_GET, GET, GOT, PREPARE, PREPARED};
use protocol::{Entry, Version};
use range_message::message_word;

// Whether client `d`'s read is in its first part.
fn in_first_part(b: &[u64], d: u64) -> bool
    requires { (1 ≤ d) × (d ≤ most_clients) }
    ensures { result ≡ is_first_part (client_in b.now d).read }
{
    client_parts::stage(b, d) == FIRST_STAGE
}

// Whether client `d`'s read, not in its first part, asks for this stamp of item `k`.
fn is_asked(b: &[u64], d: u64, k: u64, stamp: u64) -> bool
    requires { (1 ≤ d) × (d ≤ most_clients) × (k < most_items) }
    ensures { result ≡ (not (is_first_part (client_in b.now d).read)
        && eqb stamp ((client_in b.now d).read.asked k)) }
{
    !in_first_part(b, d) & (stamp == client_parts::asked(b, d, k))
}

fn prepare(looks: &Looks, v: Version) -> bool
    requires { message_in_range (tables_of looks.now.wholes.stamps.b.now).sizes (Prepare v) ≡ true }
    ensures { result ≡ good_message (tables_of looks.now.wholes.stamps.b.now) (Prepare v) }
{
    let b = looks.wholes.stamps.b;
    let Version {
        item,
        value,
        stamp,
        set,
    } = v;
    let d = stamp % 16;
    (set == looks.wholes.stamps.set_of_stamp(stamp))
        & is_counted(b, stamp)
        & (stamp == client_parts::write_stamp(b, d))
        & (set == client_parts::write_set(b, d))
        & (value == client_parts::write_value(b, d, item))
        & !looks.versions.is_stored(item, stamp)
}

fn prepared(versions: &Versions, k: u64, stamp: u64) -> bool
    requires { message_in_range (tables_of versions.now.b.now).sizes (Prepared k stamp) ≡ true }
    ensures { result ≡ good_message (tables_of versions.now.b.now) (Prepared k stamp) }
{
    versions.is_stored(k, stamp)
        & is_counted(versions.b, stamp)
        & (stamp == client_parts::write_stamp(versions.b, stamp % 16))
}

// The stamp of a commit.
fn committed(wholes: &Wholes, stamp: u64) -> bool
    requires { (stamp ≢ 0) × Ranged wholes.now.stamps.b.now stamp }
    ensures { result ≡ (whole_or_initial (tables_of wholes.now.stamps.b.now) stamp
        && is_counted (tables_of wholes.now.stamps.b.now) stamp) }
{
    wholes.whole_or_initial(stamp) & is_counted(wholes.stamps.b, stamp)
}

// The version and the latest that a got or first reply brings.
fn brought(looks: &Looks, v: Version, latest: Entry) -> bool
    requires { (v.item < most_items) × Ranged looks.now.wholes.stamps.b.now v.stamp
        × Ranged looks.now.wholes.stamps.b.now latest.stamp }
    ensures { result ≡ (good_entry (tables_of looks.now.wholes.stamps.b.now) v.item (entry_of v)
        && good_entry (tables_of looks.now.wholes.stamps.b.now) v.item latest
        && eqb v.value (stored_value (tables_of looks.now.wholes.stamps.b.now) v.item v.stamp)) }
{
    let Version {
        item,
        value,
        stamp,
        set,
    } = v;
    looks.wholes.good_entry(item, Entry { stamp, set })
        & looks.wholes.good_entry(item, latest)
        & (value == looks.versions.stored_value(item, stamp))
}

// The message of this kind with these words.
fn good_words(looks: &Looks, kind: u64, who: u64, v: Version, latest: Entry) -> bool
    requires { (1 ≤ kind) × (kind ≤ kinds)
        × (message_in_range (tables_of looks.now.wholes.stamps.b.now).sizes
        (message_of kind who v.item v.value v.stamp v.set latest) ≡ true) }
    ensures { result ≡ good_message (tables_of looks.now.wholes.stamps.b.now)
        (message_of kind who v.item v.value v.stamp v.set latest) }
{
    let b = looks.wholes.stamps.b;
    match kind {
        PREPARE => prepare(looks, v),
        PREPARED => prepared(&looks.versions, v.item, v.stamp),
        COMMIT => committed(&looks.wholes, v.stamp),
        GET => looks.wholes.good_ask(v.item, v.stamp) & is_asked(b, who, v.item, v.stamp),
        GOT => brought(looks, v, latest) & is_asked(b, who, v.item, v.stamp),
        FIRST_GET => in_first_part(b, who),
        _ => brought(looks, v, latest) & in_first_part(b, who),
    }
}

// Message `i`.
fn good_message(looks: &Looks, i: u64) -> bool
    requires { i < at looks.now.wholes.stamps.b.now header messages_at }
    ensures { result ≡ good_message (tables_of looks.now.wholes.stamps.b.now)
        (message_in looks.now.wholes.stamps.b.now i) }
{
    let b = looks.wholes.stamps.b;
    good_words(
        looks,
        message_word(b, i, 0),
        message_word(b, i, 1),
        Version {
            item: message_word(b, i, 2),
            value: message_word(b, i, 3),
            stamp: message_word(b, i, 4),
            set: message_word(b, i, 5),
        },
        Entry {
            stamp: message_word(b, i, 6),
            set: message_word(b, i, 7),
        },
    )
}

// All messages.
pub fn good_messages(looks: &Looks) -> bool
    ensures { result ≡ all (good_message (tables_of looks.now.wholes.stamps.b.now))
        (tables_of looks.now.wholes.stamps.b.now).messages }
{
    (0..layout::message_count(looks.wholes.stamps.b)).all(|i| good_message(looks, i))
}
