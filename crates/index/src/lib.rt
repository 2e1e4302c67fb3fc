// Keys found by their links. A slot names the first place of a key, so that one link finds most
// keys, or tells that they are absent. Where another key has the slot, the walk goes on by the
// key's digits to base 8, lowest first. Where all keys and the sought key are below 8^d, a walk
// meets at most d + 1 links (`walk-short`, proofs/Short.antt).

#![tactic(auto)]

ghost use Rattle.std.specs.Prelude.{◌≡◌, suc, ◌<◌, length};
ghost use Rattle.index.specs.Index.{place, slot_of, Ends, Links, Indexed, Index};

const SLOTS: usize = 512;

// The base of a walk's digits: below each place lie so many links, one for each digit.
const BASE: usize = 8;

const MOST_KEYS: usize = 528;

// The slots, and the links below each place.
pub const LINKS: usize = SLOTS + BASE * MOST_KEYS;

// The slot of a key: the upper bits of a product, which scatters keys that lie close.
fn slot_of(key: u64) -> usize
    ensures { result ≡ slot_of key }
{
    (key % 4294967296 * 2654435769 / 8388608 % SLOTS as u64) as usize
}

// The link where the walk of `key` ends: the link names a place of `key`, or none.
fn last_link(keys: &[u64], links: &[u64], key: u64) -> usize
    requires { Links keys.now links.now }
    ensures { Ends keys.now links.now key result }
{
    let mut at = slot_of(key);
    let mut rest = key;
    // Stays a `while`: it follows links to their end, and counts no index.
    while links[at] != 0 {
        let p = (links[at] - 1) as usize;
        if keys[p] == key {
            return at;
        }
        at = SLOTS + BASE * p + (rest % BASE as u64) as usize;
        rest /= BASE as u64;
    }
    at
}

// The first place of `key`; the number of keys where `key` is none of them.
// Stays a number: the promise is `place`, one for each key, by which the checks compare places.
// Their contracts would turn an Option back into it.
pub fn find(keys: &[u64], links: &[u64], key: u64) -> usize
    requires { Index keys.now links.now }
    ensures { result ≡ place keys.now key }
{
    let at = last_link(keys, links, key);
    let found = links[at];
    if found == 0 {
        keys.len()
    } else {
        (found - 1) as usize
    }
}

// One key more, at place `p`: the link where the key's walk ends names `p`, unless an earlier key
// is equal.
fn add(keys: &[u64], links: &mut [u64], p: usize)
    requires { Indexed keys.now links.old p × (p < length keys.now) }
    ensures { Indexed keys.now links.new (suc p) }
{
    let at = last_link(keys, links, keys[p]);
    let found = links[at];
    if found == 0 {
        links[at] = p as u64 + 1;
    }
}

// The links of all keys.
pub fn index(keys: &[u64], links: &mut [u64])
    requires { Indexed keys.now links.old 0 }
    ensures { Index keys.now links.new }
{
    for p in 0..keys.len() {
        add(keys, links, p);
    }
}
