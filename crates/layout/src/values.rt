// The values in the word that a transaction has for an item. A mixed transaction's word holds two:
// the answer read in its low half, and the value written in its high half. Any other's is one value.
ghost use Rattle.std.specs.Prelude.{◌≡◌};
ghost use Rattle.layout.specs.Layout.{high_half, both_halves, read_value, written_value};
ghost use Rattle.layout.specs.Layout.{written_word, with_answer};

// A half of a word is below `HALF`.
const HALF: u64 = 4294967296;

fn both_halves(low: u64, high: u64) -> u64
    ensures { result ≡ both_halves low high }
{
    high % HALF * HALF + low % HALF
}

fn high_half(w: u64) -> u64
    ensures { result ≡ high_half w }
{
    w / HALF % HALF
}

// The answer read, of the word `w`.
pub fn read_value(mixed: bool, w: u64) -> u64
    ensures { result ≡ read_value mixed w }
{
    if mixed { w % HALF } else { w }
}

// The value written, of the word `w`.
pub fn written_value(mixed: bool, w: u64) -> u64
    ensures { result ≡ written_value mixed w }
{
    if mixed { high_half(w) } else { w }
}

// The word of the value `v` to be written: no answer yet.
pub fn written_word(mixed: bool, v: u64) -> u64
    ensures { result ≡ written_word mixed v }
{
    if mixed { both_halves(0, v) } else { v }
}

// The word `w` with the answer `v`.
pub fn with_answer(mixed: bool, w: u64, v: u64) -> u64
    ensures { result ≡ with_answer mixed w v }
{
    if mixed {
        both_halves(v, high_half(w))
    } else {
        v
    }
}
