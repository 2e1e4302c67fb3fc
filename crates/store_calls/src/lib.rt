// The calls but a delivery, each with its answer. A refused one changes nothing: its first step, the
// refusal table's tests, hands the refusal on.

#![tactic(auto)]

ghost use Rattle.std.specs.Prelude.{◌≡◌, ◌≤◌, length};
ghost use Rattle.protocol.specs.Calls.{start_read, start_fast_read, start_write, start_mixed, show};
ghost use Rattle.protocol.specs.Calls.{clear, hand_over, compare, check};
ghost use Rattle.layout.specs.Layout.{needed, header, at, items_at};
ghost use Rattle.layout.specs.Decode.{tables_of};
ghost use Rattle.gather.specs.Sized.{sizes};
ghost use Rattle.block_calls.specs.Calls.{fresh_answer_on, fresh_after, fresh_tables};
ghost use Rattle.block_calls.specs.Calls.{answer_on, output_on, block_after, tables_after, read_call};
ghost use Rattle.block_calls.specs.Calls.{read_changed};
ghost use Rattle.store_calls.specs.Answered.{answer_of};

use protocol::Answer;
use protocol::refusal::Refusal;
use show::{frame_length, write_frame};

// The answer of a call, of a refused one too.
fn answered(given: Result<Answer, Refusal>) -> Answer
    ensures { result ≡ answer_of given }
{
    match given {
        Ok(answer) => answer,
        Err(refusal) => refusal.into(),
    }
}

fn try_fresh(b: &mut [u64], clients: u64, partitions: u64, items: u64) -> Result<Answer, Refusal>
    ensures answer { answer_of result ≡ fresh_answer_on b.old (sizes clients partitions items) }
    ensures block { b.new ≡ fresh_after b.old (sizes clients partitions items) }
    ensures tables { tables_of b.new ≡ fresh_tables b.old (sizes clients partitions items) }
{
    refusals::of_fresh(b, clients, partitions, items)?;
    layout::make_fresh(b, clients, partitions, items);
    Ok(Answer::Made)
}

pub fn fresh(b: &mut [u64], clients: u64, partitions: u64, items: u64) -> Answer
    ensures answer { result ≡ fresh_answer_on b.old (sizes clients partitions items) }
    ensures block { b.new ≡ fresh_after b.old
        (sizes clients partitions items) }
    ensures tables { tables_of b.new
        ≡ fresh_tables b.old (sizes clients partitions items) }
{
    answered(try_fresh(b, clients, partitions, items))
}

// What the start of a read changes. Stays a flag: the clauses of `read` speak of it, and one
// function for both kinds is quicker than two.
fn begin_read(b: &mut [u64], fast: bool, d: u64, s: u64, items: u64)
    requires { (1 ≤ d) × (d ≤ 8) × (items ≤ 64) × (items ≡ at b.old header items_at)
        × (needed ≤ length b.old) }
    ensures { b.new ≡ read_changed fast b.old d s }
{
    if fast {
        start_read::start_fast_read(b, d, s, items);
    } else {
        start_read::start_read(b, d, s, items);
    }
}

fn try_read(b: &mut [u64], fast: bool, d: u64, s: u64) -> Result<Answer, Refusal>
    ensures answer { answer_of result ≡ answer_on b.old (read_call fast d s) }
    ensures block { b.new ≡ block_after b.old (read_call fast d s) }
{
    refusals::of_read(b, d, s)?;
    let items = layout::items(b);
    begin_read(b, fast, d, s, items);
    let length = layout::message_count(b);
    Ok(Answer::Started { length })
}

// The start of a read, ordinary or fast: a fast one is refused as a read is (document 02, P7).
pub fn read(b: &mut [u64], fast: bool, d: u64, s: u64) -> Answer
    ensures answer { result ≡ answer_on b.old (read_call fast d s) }
    ensures block { b.new ≡ block_after b.old (read_call fast d s) }
    ensures tables { tables_of b.new
        ≡ tables_after b.old (read_call fast d s) }
{
    answered(try_read(b, fast, d, s))
}

pub fn start_read(b: &mut [u64], d: u64, s: u64) -> Answer
    ensures answer { result ≡ answer_on b.old (start_read d s) }
    ensures block { b.new ≡ block_after b.old (start_read d s) }
    ensures tables { tables_of b.new
        ≡ tables_after b.old (start_read d s) }
{
    read(b, false, d, s)
}

pub fn start_fast_read(b: &mut [u64], d: u64, s: u64) -> Answer
    ensures answer { result ≡ answer_on b.old (start_fast_read d s) }
    ensures block { b.new ≡ block_after b.old (start_fast_read d s) }
    ensures tables { tables_of b.new
        ≡ tables_after b.old (start_fast_read d s) }
{
    read(b, true, d, s)
}

fn try_write(b: &mut [u64], d: u64, s: u64, bytes: &[u8]) -> Result<Answer, Refusal>
    ensures answer { answer_of result ≡ answer_on b.old (start_write d s bytes.now) }
    ensures block { b.new ≡ block_after b.old
        (start_write d s bytes.now) }
{
    refusals::of_write(b, d, s, bytes)?;
    let items = layout::items(b);
    start_write::start_write(b, d, s, bytes, items);
    let length = layout::message_count(b);
    Ok(Answer::Started { length })
}

pub fn start_write(b: &mut [u64], d: u64, s: u64, bytes: &[u8]) -> Answer
    ensures answer { result ≡ answer_on b.old (start_write d s bytes.now) }
    ensures block { b.new ≡ block_after b.old
        (start_write d s bytes.now) }
    ensures tables { tables_of b.new
        ≡ tables_after b.old (start_write d s bytes.now) }
{
    answered(try_write(b, d, s, bytes))
}

fn try_mixed(b: &mut [u64], d: u64, r: u64, s: u64, bytes: &[u8]) -> Result<Answer, Refusal>
    ensures answer { answer_of result ≡ answer_on b.old
        (start_mixed d r s bytes.now) }
    ensures block { b.new ≡ block_after b.old
        (start_mixed d r s bytes.now) }
{
    refusals::of_mixed(b, d, r, s, bytes)?;
    let items = layout::items(b);
    start_mixed::start_mixed(b, d, r, s, bytes, items);
    let length = layout::message_count(b);
    Ok(Answer::Started { length })
}

// It reads set `r` and writes set `s` (document 02, P8).
pub fn start_mixed(b: &mut [u64], d: u64, r: u64, s: u64, bytes: &[u8]) -> Answer
    ensures answer { result ≡ answer_on b.old
        (start_mixed d r s bytes.now) }
    ensures block { b.new ≡ block_after b.old
        (start_mixed d r s bytes.now) }
    ensures tables { tables_of b.new
        ≡ tables_after b.old (start_mixed d r s bytes.now) }
{
    answered(try_mixed(b, d, r, s, bytes))
}

fn try_show(b: &[u64], d: u64, out: &mut [u8]) -> Result<Answer, Refusal>
    ensures answer { answer_of result ≡ answer_on b.now (show d out.old) }
    ensures output { out.new ≡ output_on b.now
        (show d out.old) }
{
    refusals::of_show(b, d, out)?;
    write_frame(b, d, out);
    let length = frame_length(b, d);
    Ok(Answer::Shown { length })
}

// The block is lent shared: a showing doesn't change it.
pub fn show(b: &[u64], d: u64, out: &mut [u8]) -> Answer
    ensures answer { result ≡ answer_on b.now (show d out.old) }
    ensures block { b.now ≡ block_after b.now
        (show d out.old) }
    ensures output { out.new ≡ output_on b.now
        (show d out.old) }
{
    answered(try_show(b, d, out))
}

fn try_clear(b: &mut [u64]) -> Result<Answer, Refusal>
    ensures answer { answer_of result ≡ answer_on b.old clear }
    ensures block { b.new ≡ block_after b.old clear }
{
    refusals::of_clear(b)?;
    let gone = clear::clear(b);
    Ok(Answer::Cleared { gone })
}

pub fn clear(b: &mut [u64]) -> Answer
    ensures answer { result ≡ answer_on b.old clear }
    ensures block { b.new ≡ block_after b.old clear }
    ensures tables { tables_of b.new ≡ tables_after b.old clear }
{
    answered(try_clear(b))
}

fn try_hand_over(b: &mut [u64], giver: u64, receiver: u64) -> Result<Answer, Refusal>
    ensures answer { answer_of result ≡ answer_on b.old (hand_over giver receiver) }
    ensures block { b.new ≡ block_after b.old (hand_over giver receiver) }
{
    refusals::of_hand_over(b, giver, receiver)?;
    let items = layout::items(b);
    hand_over::hand_over(b, giver, receiver, items);
    Ok(Answer::HandedOver { giver, receiver })
}

pub fn hand_over(b: &mut [u64], giver: u64, receiver: u64) -> Answer
    ensures answer { result ≡ answer_on b.old (hand_over giver receiver) }
    ensures block { b.new ≡ block_after b.old (hand_over giver receiver) }
    ensures tables { tables_of b.new
        ≡ tables_after b.old (hand_over giver receiver) }
{
    answered(try_hand_over(b, giver, receiver))
}

fn try_compare(b: &[u64], first: u64, second: u64) -> Result<Answer, Refusal>
    ensures { answer_of result ≡ answer_on b.now (compare first second) }
{
    refusals::of_compare(b, first, second)?;
    let items = layout::items(b);
    let standing = hand_over::compare(b, first, second, items);
    Ok(Answer::Compared { standing })
}

// The block is lent shared: a comparison doesn't change it.
pub fn compare(b: &[u64], first: u64, second: u64) -> Answer
    ensures answer { result ≡ answer_on b.now (compare first second) }
    ensures block { b.now ≡ block_after b.now (compare first second) }
{
    answered(try_compare(b, first, second))
}

fn try_check(b: &[u64]) -> Result<Answer, Refusal>
    ensures { answer_of result ≡ answer_on b.now check }
{
    refusals::of_check(b)?;
    Ok(Answer::Checked)
}

// The block is lent shared: a check doesn't change it.
pub fn check(b: &[u64]) -> Answer
    ensures answer { result ≡ answer_on b.now check }
    ensures block { b.now ≡ block_after b.now check }
{
    answered(try_check(b))
}
