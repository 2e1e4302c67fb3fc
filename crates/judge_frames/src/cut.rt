// Frames that lie one after another in an array of bytes, cut at the starts that a second array
// holds.
ghost use Rattle.std.specs.Prelude.{◌≡◌, ◌≤◌, get_or};
ghost use Rattle.judge_frames.specs.Cut.{part as part_of, frame_in};

// The bytes of `s` from `a` on, before `e`; none where that is no part of `s`.
#[tactic(auto, unfolding(crate::specs::Cut::part))]
pub fn part(s: &[u8], a: usize, e: usize) -> &[u8]
    ensures { result.now ≡ part_of s.now a e }
{
    s.get(a..e).unwrap_or(&[])
}

// The i-th of `starts`; 0 past their end.
pub fn start(starts: &[usize], i: usize) -> usize
    ensures { result ≡ get_or starts.now i 0 }
{
    starts.get(i).copied().unwrap_or(0)
}

// Frames that lie in `bytes`, each from its start to the next one's.
#[derive(Clone, Copy)]
pub struct Frames<'a, 'b> {
    pub bytes: &'a [u8],
    pub starts: &'b [usize],
}

impl<'a> Frames<'a, '_> {
    // Frame `i`.
    pub fn frame(self, i: usize) -> &'a [u8]
        requires { i ≤ 65536 }
        ensures { result.now ≡ frame_in self.entry.bytes.now self.entry.starts.now i }
    {
        part(self.bytes, start(self.starts, i), start(self.starts, i + 1))
    }
}
