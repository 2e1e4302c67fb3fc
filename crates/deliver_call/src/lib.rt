// A delivery with its answer. A refused one changes nothing.

#![tactic(auto)]

ghost use Rattle.std.specs.Prelude.{◌≡◌, IfOk, Ok};
ghost use Rattle.protocol.specs.Calls.{deliver};
ghost use Rattle.protocol.specs.Refusal.{refused_by};
ghost use Rattle.layout.specs.Layout.{header, at, versions_at};
ghost use Rattle.layout.specs.Decode.{message_in, tables_of};
ghost use Rattle.deliver_tests.specs.Tests.{tested_in};
ghost use Rattle.block_calls.specs.Calls.{refusal_on, answer_on, block_after, tables_after};

use deliver::{Counts, deliver_message};
use deliver_tests::{outcome, test};
use messages::{kind, message};
use protocol::refusal::Refusal;
use protocol::{Answer, Message, Version};
use range::valid_block;

// The message at place `i` and the stored version that answers it, or the refusal of its delivery.
fn tested(b: &[u64], i: u64) -> Result<(Message, Option<Version>), Refusal>
    ensures refusal { refused_by result ≡ refusal_on b.now (deliver i) }
    ensures told { IfOk result (λ told. (told.0 ≡ message_in b.now i)
        × (Ok told.1 ≡ tested_in b.now (at b.now header versions_at) told.0)) }
{
    if !valid_block(b) {
        return Err(Refusal::InvalidBlock);
    }
    if layout::message_count(b) <= i {
        return Err(Refusal::NoSuchPlace);
    }
    let m = message(b, i);
    let found = test(b, layout::version_count(b), m)?;
    Ok((m, found))
}

// Message `m` at place `i`, which `found` answers: a delivery that is accepted.
fn deliver_on(b: &mut [u64], i: u64, m: Message, found: Option<Version>) -> Answer
    requires { (refusal_on b.old (deliver i) ≡ 0) × (m ≡ message_in b.old i)
        × (Ok found ≡ tested_in b.old (at b.old header versions_at) m) }
    ensures answer { result ≡ answer_on b.old (deliver i) }
    ensures block { b.new ≡ block_after b.old (deliver i) }
{
    let kind = kind(b, i);
    let counts = Counts {
        partitions: layout::partitions(b),
        items: layout::items(b),
        versions: layout::version_count(b),
    };
    let messages = layout::message_count(b);
    deliver_message(b, messages, i, counts, found, m);
    let length = layout::message_count(b);
    let outcome = outcome(b, m);
    Answer::Delivered {
        kind,
        length,
        outcome,
    }
}

pub fn deliver(b: &mut [u64], i: u64) -> Answer
    ensures answer { result ≡ answer_on b.old (deliver i) }
    ensures block { b.new ≡ block_after b.old (deliver i) }
    ensures tables { tables_of b.new ≡ tables_after b.old (deliver i) }
{
    match tested(b, i) {
        Ok((m, found)) => deliver_on(b, i, m, found),
        Err(refusal) => Answer::from(refusal),
    }
}
