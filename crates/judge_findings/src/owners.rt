// A table with the clients (desks) as whose own each line's write counts, kept up to date line by
// line (document 02, P6).
ghost use Rattle.std.specs.Prelude.{cond, ◌≡◌, ◌≤◌, ◌<◌, length};
ghost use Rattle.itemset.specs.Set.{has, insert};
ghost use Rattle.log_format.specs.Log.{kind_of, hands_over};
ghost use Rattle.judge_findings.specs.Owned.{Passed, SmallClients};

use judge_frames::fields::{client, hands_over, receiver};

// The clients, and if the giver is one of them also the receiver.
fn with_heir(clients: u64, giver: u64, to: u64) -> u64
    requires { to < 64 }
    ensures { result ≡ cond (has clients giver) (insert clients to) clients }
{
    if itemset::has(clients, giver) {
        itemset::insert(clients, to)
    } else {
        clients
    }
}

// How many lines, from the first on, line `line` may hand over: all those above, or none.
fn handed(f: &[u8], line: usize) -> usize
    ensures value { result ≡ cond (hands_over (kind_of f.now)) line 0 }
    ensures upper_bound { result ≤ line }
{
    if hands_over(f) { line } else { 0 }
}

// Takes the table from line `line`, which is frame `f`, to the next line: what was the giver's own
// is the receiver's too, and what the line wrote is its client's.
pub fn pass_line(owners: &mut [u64], line: usize, f: &[u8])
    requires { (line < length owners.old) × SmallClients f.now }
    ensures { Passed owners.old line f.now owners.new }
{
    let giver = client(f);
    let to = receiver(f);
    let above = handed(f, line);
    for clients in &mut owners[..above] {
        *clients = with_heir(*clients, giver, to);
    }
    owners[line] = itemset::insert(0, giver);
}
