// The judge of a log for C: its verdict as one number.

#![tactic(auto)]

ghost use Rattle.std.specs.Prelude.{◌≡◌};
ghost use Rattle.findings.specs.Findings.{verdict, number_of};

use findings::Verdict;
use judge::judge;

// The verdict as one number: the lowest byte is 0 or the refusal, bits 8 to 15 the finding, bits 16
// to 31 the line.
fn packed(v: Verdict) -> u64
    ensures { result ≡ number_of v }
{
    match v {
        Verdict::TooLong => 16,
        Verdict::Malformed { line } => 15 + u64::from(line) * 65536,
        Verdict::Judged { finding, line } => u64::from(finding) * 256 + u64::from(line) * 65536,
    }
}

// The judge's one call for C.
#[unsafe(no_mangle)]
pub extern "C" fn koolvent_judge(log: &[u8]) -> u64
    ensures { result ≡ number_of (verdict log.now) }
{
    packed(judge(log))
}
