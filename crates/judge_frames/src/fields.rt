// The parts and fields of a log frame, a field 0 where the frame is too short to have it (document
// 01: log frames).
ghost use Rattle.std.specs.Prelude.{◌≡◌, ◌≤◌, ◌<◌, get_or};
ghost use Rattle.hexadecimal.specs.Number.{number_at};
ghost use Rattle.itemset.specs.Set.{rank};
ghost use Rattle.log_format.specs.Log.{kind_of, client_of, count64, has_read, has_write, hands_over};
ghost use Rattle.log_format.specs.Log.{reads_own, receiver_of, shown_stamp, shown_value, write_at, number_of};
ghost use Rattle.log_format.specs.Log.{written_stamp, written_value, end_of, written as written_items};
ghost use Rattle.log_format.specs.Log.{shown as shown_items};

pub fn byte(f: &[u8], at: usize) -> u64
    ensures value { result ≡ get_or f.now at 0 }
    ensures upper_bound { result < 256 }
{
    f.get(at).map_or(0, |b| u64::from(*b))
}

// The big-endian number of the `n` bytes that begin at `at`.
pub fn number(f: &[u8], at: usize, n: usize) -> u64
    requires { (n ≤ 8) × (at ≤ 65536) }
    ensures { result ≡ number_at n f.now at }
{
    let mut number = 0;
    for k in 0..n {
        let next = byte(f, at + k);
        number = number * 256 + next;
    }
    number
}

// The number of the four bytes that begin at `at`.
pub fn word(f: &[u8], at: usize) -> u64
    requires { at ≤ 65536 }
    ensures value { result ≡ number_at 4 f.now at }
    ensures upper_bound { result < 4294967296 }
{
    number(f, at, 4)
}

// The client (desk) whose frame it is; of a hand-over the giver.
pub fn client(f: &[u8]) -> u64
    ensures value { result ≡ client_of f.now }
    ensures upper_bound { result < 256 }
{
    byte(f, 1)
}

// Whether the frame's kind has a read part.
pub fn has_read(f: &[u8]) -> bool
    ensures { result ≡ has_read (kind_of f.now) }
{
    matches!(byte(f, 0), 0x21 | 0x23 | 0x24)
}

// Whether the frame's kind is to see its client's own writes.
pub fn reads_own(f: &[u8]) -> bool
    ensures { result ≡ reads_own (kind_of f.now) }
{
    matches!(byte(f, 0), 0x21 | 0x24)
}

// Whether the frame's kind has a write part.
pub fn has_write(f: &[u8]) -> bool
    ensures { result ≡ has_write (kind_of f.now) }
{
    matches!(byte(f, 0), 0x20 | 0x24)
}

// Whether the frame is a hand-over.
pub fn hands_over(f: &[u8]) -> bool
    ensures { result ≡ hands_over (kind_of f.now) }
{
    byte(f, 0) == 0x22
}

// The client to whom a hand-over gives.
pub fn receiver(f: &[u8]) -> u64
    ensures value { result ≡ receiver_of f.now }
    ensures upper_bound { result < 256 }
{
    byte(f, 2)
}

// The items that the frame shows; none without a read part.
#[tactic(auto, unfolding(log_format::specs::Log::shown))]
pub fn shown(f: &[u8]) -> u64
    ensures { result ≡ shown_items f.now }
{
    if has_read(f) { number(f, 2, 8) } else { 0 }
}

// How many items the frame shows.
pub fn shown_count(f: &[u8]) -> usize
    ensures value { result ≡ count64 (shown_items f.now) }
    ensures upper_bound { result ≤ 64 }
{
    itemset::count(shown(f)) as usize
}

// How many of the items are below `item`: its place among them.
fn place(items: u64, item: u64) -> usize
    ensures value { result ≡ rank items item }
    ensures upper_bound { result ≤ 64 }
{
    itemset::rank(items, item) as usize
}

// The stamp with which the frame, which shows `items`, shows `item`.
#[tactic(auto, unfolding(log_format::specs::Log::shown_stamp))]
pub fn shown_stamp(f: &[u8], items: u64, item: u64) -> u64
    requires { items ≡ shown_items f.now }
    ensures { result ≡ shown_stamp f.now item }
{
    let at = 10 + 9 * place(items, item);
    word(f, at) * 16 + byte(f, at + 4)
}

// The value with which the frame, which shows `items`, shows `item`.
#[tactic(auto, unfolding(log_format::specs::Log::shown_value))]
pub fn shown_value(f: &[u8], items: u64, item: u64) -> u64
    requires { items ≡ shown_items f.now }
    ensures { result ≡ shown_value f.now item }
{
    word(f, 10 + 9 * place(items, item) + 5)
}

// Where the write part begins: behind the read part, or behind the client.
#[tactic(auto, unfolding(log_format::specs::Log::write_at))]
pub fn write_at(f: &[u8]) -> usize
    ensures value { result ≡ write_at f.now }
    ensures upper_bound { result ≤ 586 }
{
    if has_read(f) {
        10 + 9 * shown_count(f)
    } else {
        2
    }
}

// The items that the frame wrote; none without a write part.
#[tactic(auto, unfolding(log_format::specs::Log::written))]
pub fn written(f: &[u8]) -> u64
    ensures { result ≡ written_items f.now }
{
    if has_write(f) {
        number(f, write_at(f), 8)
    } else {
        0
    }
}

// How many items the frame wrote.
fn written_count(f: &[u8]) -> usize
    ensures value { result ≡ count64 (written_items f.now) }
    ensures upper_bound { result ≤ 64 }
{
    itemset::count(written(f)) as usize
}

// The number of the frame's write; 0 without a write part.
#[tactic(auto, unfolding(log_format::specs::Log::number_of))]
pub fn write_number(f: &[u8]) -> u64
    ensures value { result ≡ number_of f.now }
    ensures upper_bound { result < 4294967296 }
{
    if has_write(f) {
        word(f, write_at(f) + 8)
    } else {
        0
    }
}

// The stamp of the frame's write, as one number.
#[tactic(auto, unfolding(log_format::specs::Log::written_stamp))]
pub fn written_stamp(f: &[u8]) -> u64
    ensures { result ≡ written_stamp f.now }
{
    write_number(f) * 16 + client(f)
}

// What the frame, which wrote `items`, gave `item`.
#[tactic(auto, unfolding(log_format::specs::Log::written_value))]
pub fn written_value(f: &[u8], items: u64, item: u64) -> u64
    requires { items ≡ written_items f.now }
    ensures { result ≡ written_value f.now item }
{
    word(f, write_at(f) + 12 + 4 * place(items, item))
}

// Where the frame ends: behind its last part.
#[tactic(auto, unfolding(log_format::specs::Log::end_of))]
pub fn frame_end(f: &[u8]) -> usize
    ensures { result ≡ end_of f.now }
{
    if hands_over(f) {
        return 3;
    }
    if has_write(f) {
        write_at(f) + 12 + 4 * written_count(f)
    } else {
        write_at(f)
    }
}
