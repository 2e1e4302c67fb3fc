// What the stored versions and the messages in flight share: each is a run of words at the end of
// those that are there.

#![tactic(auto)]

ghost use Rattle.std.specs.Prelude.{◌≡◌, ◌≤◌, ◌<◌};
ghost use Rattle.std.proofs.lemmas.List.Edits.{sets};
ghost use Rattle.layout.specs.Layout.{needed, message_words};

use layout::put_word;

// The words of one of them, from `place` on.
pub fn put_words<const N: usize>(b: &mut [u64], place: u64, words: [u64; N])
    requires { (place < needed) × (N ≤ message_words) }
    ensures { b.new ≡ sets b.old place words.entry }
{
    for (k, word) in words.iter().enumerate() {
        put_word(b, place as usize + k, *word);
    }
}
