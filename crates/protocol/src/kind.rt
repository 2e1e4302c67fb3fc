// The kinds of last ended transactions, and which parts each shows.
ghost use Rattle.std.specs.Prelude.{◌≡◌};
ghost use Rattle.protocol.specs.Tables.{is_kind, shows_read, shows_write};

// None has ended yet, a read, a write, a fast read, and a mixed transaction, which has both parts. A
// kind is below `KINDS`.
// Stay numbers: they are words of a lent block, which may hold any other number too.
pub const NONE: u64 = 0;

pub const READ: u64 = 1;

pub const WRITE: u64 = 2;

pub const FAST_READ: u64 = 3;

pub const MIXED: u64 = 4;

const KINDS: u64 = 5;

pub fn is_kind(kind: u64) -> bool
    ensures { result ≡ is_kind kind }
{
    kind < KINDS
}

pub fn shows_read(kind: u64) -> bool
    ensures { result ≡ shows_read kind }
{
    (kind == READ) | (kind == FAST_READ) | (kind == MIXED)
}

pub fn shows_write(kind: u64) -> bool
    ensures { result ≡ shows_write kind }
{
    (kind == WRITE) | (kind == MIXED)
}
