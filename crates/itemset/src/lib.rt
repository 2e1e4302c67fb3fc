// Sets of items as 64-bit numbers: item k is the bit worth 2 to the power k. No set has an item of
// 64 or more.

#![tactic(auto)]

ghost use Rattle.std.specs.Prelude.{◌≡◌, ◌-◌};
ghost use Rattle.itemset.specs.Set.{has, count, rank, insert64, remove, all_below, least_from};

// Whether `item` is a member of `set`.
pub fn has(set: u64, item: u64) -> bool
    ensures { result ≡ has set item }
{
    item < 64 && (set >> item) % 2 == 1
}

// How many members `set` has.
pub fn count(set: u64) -> u64
    ensures { result ≡ count set }
{
    u64::from(set.count_ones())
}

// How many members of `set` are below `item`.
pub fn rank(set: u64, item: u64) -> u64
    ensures { result ≡ rank set item }
{
    if item < 64 {
        count(set & ((1 << item) - 1))
    } else {
        count(set)
    }
}

// `set` with `item`; an item of 64 or more changes nothing.
pub fn insert(set: u64, item: u64) -> u64
    ensures { result ≡ insert64 set item }
{
    if item < 64 { set | (1 << item) } else { set }
}

// `set` without `item`.
pub fn remove(set: u64, item: u64) -> u64
    ensures { result ≡ remove set item }
{
    if item < 64 {
        set - (set & (1 << item))
    } else {
        set
    }
}

// Whether every member of `set` is below `n`.
pub fn all_below(set: u64, n: u64) -> bool
    ensures { result ≡ all_below set n }
{
    64 <= n || set >> n == 0
}

// The least member of `set` at or above `item`, and 64 where there is none; an item of 64 or more
// is its own answer.
pub fn least_from(set: u64, item: u64) -> u64
    ensures { result ≡ least_from (64 - item) set item }
{
    if item < 64 {
        (item + u64::from((set >> item).trailing_zeros())).min(64)
    } else {
        item
    }
}
