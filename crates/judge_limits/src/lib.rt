// The limits of a log (document 01: refusal 16).

#![tactic(auto)]

ghost use Rattle.std.specs.Prelude.{◌≡◌, eqb};
ghost use Rattle.basics.specs.Lists.{counted};
ghost use Rattle.log_format.specs.Log.{too_long};

// How many line ends the log has.
fn ends(log: &[u8]) -> usize
    ensures { result ≡ counted (λ c. eqb c 0x0a) log.now }
{
    let mut n: usize = 0;
    // Stays a `for`: with `filter` and `count` it takes twice as long or more.
    for c in log {
        n += usize::from(*c == b'\n');
    }
    n
}

// Over 32,768 bytes or over 256 line ends.
#[tactic(auto, unfolding(log_format::specs::Log::too_long))]
pub fn too_long(log: &[u8]) -> bool
    ensures { result ≡ too_long log.now }
{
    log.len() > 32768 || ends(log) > 256
}
