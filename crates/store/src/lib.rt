// The store: eleven calls on one lent block of words (document 01: fresh, start a read, start a
// write, deliver, show; document 02: start a fast read, start a mixed transaction, clear, hand
// over, compare, check), for C. Each returns a number: refused, the refusal; accepted, 0 in the
// lowest byte and the answer above it (`number_of_answer`).

#![tactic(auto)]

ghost use Rattle.std.specs.Prelude.{◌≡◌};
ghost use Rattle.protocol.specs.Calls.{start_read, start_fast_read, start_write, start_mixed, deliver};
ghost use Rattle.protocol.specs.Calls.{show, clear, hand_over, compare, check, number_of_answer};
ghost use Rattle.layout.specs.Decode.{tables_of};
ghost use Rattle.gather.specs.Sized.{sizes};
ghost use Rattle.block_calls.specs.Calls.{fresh_answer_on, fresh_after, fresh_tables, answer_on};
ghost use Rattle.block_calls.specs.Calls.{output_on, block_after, tables_after, read_call, Fits};

use protocol::Answer;

// The number that tells this answer. Stays a function: it requires that the parts fit, which no
// `From` may.
#[tactic(auto, unfolding(protocol::specs::Calls::number_of_answer))]
fn number_of(a: Answer) -> u64
    requires { Fits a }
    ensures { result ≡ number_of_answer a }
{
    match a {
        Answer::Refused(refusal) => refusal,
        Answer::Made | Answer::HandedOver { .. } => 0,
        Answer::Started { length } => length * 256,
        Answer::Delivered {
            kind,
            length,
            outcome,
        } => kind * 256 + length * 65536 + outcome * 4294967296,
        Answer::Shown { length } => length * 256,
        Answer::Cleared { gone } => gone * 256,
        Answer::Compared { standing } => standing * 256,
        Answer::Checked => 0,
    }
}

#[unsafe(no_mangle)]
pub extern "C" fn koolvent_fresh(b: &mut [u64], clients: u64, partitions: u64, items: u64) -> u64
    ensures answer { result ≡ number_of_answer
        (fresh_answer_on b.old (sizes clients partitions items)) }
    ensures block { b.new ≡ fresh_after b.old
        (sizes clients partitions items) }
    ensures tables { tables_of b.new
        ≡ fresh_tables b.old (sizes clients partitions items) }
{
    number_of(store_calls::fresh(b, clients, partitions, items))
}

// The start of a read, ordinary or fast. One function for both, for speed: two of `store_calls`
// would share a third, which hands its answer over in memory.
fn read(b: &mut [u64], fast: bool, client: u64, set: u64) -> u64
    ensures answer { result ≡ number_of_answer
        (answer_on b.old (read_call fast client set)) }
    ensures block { b.new
        ≡ block_after b.old (read_call fast client set) }
    ensures tables { tables_of b.new
        ≡ tables_after b.old (read_call fast client set) }
{
    number_of(store_calls::read(b, fast, client, set))
}

#[unsafe(no_mangle)]
pub extern "C" fn koolvent_start_read(b: &mut [u64], client: u64, set: u64) -> u64
    ensures answer { result ≡ number_of_answer
        (answer_on b.old (start_read client set)) }
    ensures block { b.new ≡ block_after b.old (start_read client set) }
    ensures tables { tables_of b.new
        ≡ tables_after b.old (start_read client set) }
{
    read(b, false, client, set)
}

#[unsafe(no_mangle)]
pub extern "C" fn koolvent_start_fast_read(b: &mut [u64], client: u64, set: u64) -> u64
    ensures answer { result ≡ number_of_answer
        (answer_on b.old (start_fast_read client set)) }
    ensures block { b.new
        ≡ block_after b.old (start_fast_read client set) }
    ensures tables { tables_of b.new
        ≡ tables_after b.old (start_fast_read client set) }
{
    read(b, true, client, set)
}

#[unsafe(no_mangle)]
pub extern "C" fn koolvent_start_write(b: &mut [u64], client: u64, set: u64, values: &[u8]) -> u64
    ensures answer { result ≡ number_of_answer
        (answer_on b.old (start_write client set values.now)) }
    ensures block { b.new ≡ block_after b.old
        (start_write client set values.now) }
    ensures tables { tables_of b.new
        ≡ tables_after b.old (start_write client set values.now) }
    ensures values { values.now ≡ values.now }
{
    number_of(store_calls::start_write(b, client, set, values))
}

#[unsafe(no_mangle)]
pub extern "C" fn koolvent_start_mixed(
    b: &mut [u64],
    client: u64,
    reads: u64,
    writes: u64,
    values: &[u8],
) -> u64
    ensures answer { result ≡ number_of_answer
        (answer_on b.old (start_mixed client reads writes values.now)) }
    ensures block { b.new ≡ block_after b.old
        (start_mixed client reads writes values.now) }
    ensures tables { tables_of b.new
        ≡ tables_after b.old (start_mixed client reads writes values.now) }
    ensures values { values.now ≡ values.now }
{
    number_of(store_calls::start_mixed(b, client, reads, writes, values))
}

#[unsafe(no_mangle)]
pub extern "C" fn koolvent_deliver(b: &mut [u64], place: u64) -> u64
    ensures answer { result ≡ number_of_answer (answer_on b.old (deliver place)) }
    ensures block { b.new ≡ block_after b.old (deliver place) }
    ensures tables { tables_of b.new
        ≡ tables_after b.old (deliver place) }
{
    number_of(deliver_call::deliver(b, place))
}

// The block is lent shared: a showing doesn't change it.
#[unsafe(no_mangle)]
pub extern "C" fn koolvent_show(b: &[u64], client: u64, output: &mut [u8]) -> u64
    ensures answer { result ≡ number_of_answer
        (answer_on b.now (show client output.old)) }
    ensures block { b.now ≡ block_after b.now
        (show client output.old) }
    ensures output { output.new
        ≡ output_on b.now (show client output.old) }
{
    number_of(store_calls::show(b, client, output))
}

#[unsafe(no_mangle)]
pub extern "C" fn koolvent_clear(b: &mut [u64]) -> u64
    ensures answer { result ≡ number_of_answer (answer_on b.old clear) }
    ensures block { b.new ≡ block_after b.old clear }
    ensures tables { tables_of b.new ≡ tables_after b.old clear }
{
    number_of(store_calls::clear(b))
}

#[unsafe(no_mangle)]
pub extern "C" fn koolvent_hand_over(b: &mut [u64], giver: u64, receiver: u64) -> u64
    ensures answer { result ≡ number_of_answer
        (answer_on b.old (hand_over giver receiver)) }
    ensures block { b.new ≡ block_after b.old (hand_over giver receiver) }
    ensures tables { tables_of b.new
        ≡ tables_after b.old (hand_over giver receiver) }
{
    number_of(store_calls::hand_over(b, giver, receiver))
}

// The block is lent shared: a comparison doesn't change it.
#[unsafe(no_mangle)]
pub extern "C" fn koolvent_compare(b: &[u64], first: u64, second: u64) -> u64
    ensures answer { result ≡ number_of_answer
        (answer_on b.now (compare first second)) }
    ensures block { b.now ≡ block_after b.now (compare first second) }
{
    number_of(store_calls::compare(b, first, second))
}

// The block is lent shared: a check doesn't change it.
#[unsafe(no_mangle)]
pub extern "C" fn koolvent_check(b: &[u64]) -> u64
    ensures answer { result ≡ number_of_answer (answer_on b.now check) }
    ensures block { b.now ≡ block_after b.now check }
{
    number_of(store_calls::check(b))
}
